//! Laws on the definition of a runbook, as a contract of a function without code.
ghost use Rattle.std.specs.Prelude.{◌≡◌, ◌⊎◌, ℕ, List};
ghost use Rattle.runbook.specs.declared.lines.BookKind.{BookKind};
ghost use Rattle.runbook.specs.declared.lines.BookLine.{BookLine};
ghost use Rattle.router_config.specs.Settings.{Settings};
ghost use Rattle.runbook.specs.Book.{AreConfiguredFor, IsBook, IsFirstFault};

/// Over each configuration a text is one runbook or has one first refused line, and never both.
pub fn one_book()
    ensures some { (config : Settings) (text : List ℕ)
        → ((rows : List (ℕ × BookLine)) × IsBook config text rows)
        ⊎ ((number : ℕ) × (kind : BookKind) × IsFirstFault config text number kind) }
    ensures only { (config : Settings) (text : List ℕ) (rows others : List (ℕ × BookLine))
        → IsBook config text rows → IsBook config text others → rows ≡ others }
    ensures fault_only { (config : Settings) (text : List ℕ) (number other : ℕ) (kind cause : BookKind)
        → IsFirstFault config text number kind → IsFirstFault config text other cause
        → (number ≡ other) × (kind ≡ cause) }
    ensures never_both { (config : Settings) (text : List ℕ) (rows : List (ℕ × BookLine)) (number : ℕ)
        (kind : BookKind) → IsBook config text rows → IsFirstFault config text number kind → ⊥ }
{}

/// The lines of a runbook name no session and no interface that is not configured.
pub fn configured_lines()
    ensures { (config : Settings) (text : List ℕ) (rows : List (ℕ × BookLine))
        → IsBook config text rows → AreConfiguredFor config rows }
{}
