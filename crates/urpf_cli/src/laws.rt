//! Laws on limits, on what comes before a run, and on the text of a run, as contracts of functions
//! without code.
ghost use Rattle.std.specs.Prelude.{◌≡◌, ◌⊎◌, ℕ, List, Option, length};
ghost use Rattle.std.specs.List.{AllZip};
ghost use Rattle.control_core.specs.Items.{SameButCuts};
ghost use Rattle.feed_io.specs.Events.{Event};
ghost use Rattle.roa_irr.specs.Tables.{Table};
ghost use Rattle.router_config.specs.Settings.{IsConfig, Settings};
ghost use Rattle.runbook.specs.Book.{IsBook};
ghost use Rattle.runbook.specs.declared.lines.BookLine.{BookLine};
ghost use Rattle.run_lines.specs.Inputs.{Run};
ghost use Rattle.urpf_cli.specs.Openings.{IsDecided, IsRefused, Opens, Texts};
ghost use Rattle.urpf_cli.specs.Outputs.{HaveSameItems, IsOutput};
ghost use Rattle.urpf_cli.specs.PairTables.{HasTable};
ghost use Rattle.run_lines.specs.Places.{Place};
ghost use Rattle.run_lines.specs.RunText.{Gives, IsRunText};
ghost use Rattle.urpf_cli.specs.Statuses.{status_of_refusal};
ghost use Rattle.run_lines.specs.Steps.{Step};
ghost use Rattle.urpf_cli.specs.Words.{PairsFrom};
ghost use Rattle.urpf_cli.specs.declared.refusals.Refusal.{Refusal};

use crate::check::STREAM_OCTETS;
use crate::opening::{BOOK_OCTETS, CONFIG_OCTETS};
use crate::pair_table::PAIRS_OCTETS;

/// A stream has at most 16 MiB, a configuration and a runbook have at most 1 MiB each, and a table of
/// pairs has at most 128 MiB. Contracts and definitions cite the limits by name.
pub fn text_limits()
    ensures { (STREAM_OCTETS ≡ 16777216) × (CONFIG_OCTETS ≡ 1048576) × (BOOK_OCTETS ≡ 1048576)
        × (PAIRS_OCTETS ≡ 134217728) }
{}

/// Words, the texts of a configuration, of a runbook and of a table of pairs, and a number of sessions
/// open one run, or decide one refusal, and never both.
pub fn one_opening()
    ensures some { (words : List (List ℕ)) (texts : Texts) (given : ℕ)
        → ((s : Settings) × (rows : List (ℕ × BookLine)) × (table : Option Table)
        × Opens words texts given s rows table)
        ⊎ ((r : Refusal) × IsDecided r × IsRefused words texts given r) }
    ensures only { (words : List (List ℕ)) (texts : Texts) (given : ℕ) (s t : Settings)
        (rows others : List (ℕ × BookLine)) (table other : Option Table)
        → Opens words texts given s rows table → Opens words texts given t others other
        → (s ≡ t) × (rows ≡ others) × (table ≡ other) }
    ensures refusal_only { (words : List (List ℕ)) (texts : Texts) (given : ℕ) (q r : Refusal)
        → IsRefused words texts given q → IsRefused words texts given r → q ≡ r }
    ensures never_both { (words : List (List ℕ)) (texts : Texts) (given : ℕ) (s : Settings)
        (rows : List (ℕ × BookLine)) (table : Option Table) (r : Refusal)
        → Opens words texts given s rows table → IsRefused words texts given r → ⊥ }
{}

/// A refusal that is decided has a status of its own.
pub fn one_refusal_status()
    ensures { (q r : Refusal) → IsDecided r → status_of_refusal q ≡ status_of_refusal r → q ≡ r }
{}

/// Each step has a text at each place, and the lines of a runbook have one text.
pub fn one_run_text()
    ensures step { (run : Run) (place : Place) (step : Step) → (text : List ℕ) × Gives run place step text }
    ensures some { (run : Run) (lines : List BookLine) → (text : List ℕ) × IsRunText run lines text }
    ensures only { (run : Run) (lines : List BookLine) (a b : List ℕ)
        → IsRunText run lines a → IsRunText run lines b → a ≡ b }
{}

/// A configuration, a runbook, a table of pairs and what the feeds of the sessions give have one output,
/// whatever the feeds are that give the same items and leave as many octets: so it is however the octets
/// are cut into events.
pub fn one_output()
    ensures some { (from : PairsFrom) (texts : Texts) (settings : Settings) (rows : List (ℕ × BookLine))
        (table : Option Table) (events : List (List Event)) → IsConfig texts.config settings
        → IsBook settings texts.book rows → HasTable from texts.pairs table
        → length events ≡ length settings.sessions → (output : List ℕ) × IsOutput from texts events output }
    ensures only { (from : PairsFrom) (texts : Texts) (events others : List (List Event))
        (output other : List ℕ) → AllZip HaveSameItems events others → IsOutput from texts events output
        → IsOutput from texts others other → output ≡ other }
    ensures cuts { (events others : List Event) → SameButCuts events others → HaveSameItems events others }
{}
