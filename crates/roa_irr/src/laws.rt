//! Laws on the definitions of tables, as contracts of functions without code.
ghost use Rattle.std.specs.Prelude.{◌≡◌, ℕ, List};
ghost use Rattle.roa_irr.specs.Irr.{IsIrrTable};
ghost use Rattle.roa_irr.specs.Tables.{Table};
ghost use Rattle.roa_irr.specs.Vrps.{IsVrpTable};

/// Each text is one VRP table.
pub fn one_vrp_table()
    ensures some { (text : List ℕ) → (table : Table) × IsVrpTable text table }
    ensures one { (text : List ℕ) (table other : Table) → IsVrpTable text table
        → IsVrpTable text other → table ≡ other }
{}

/// Each text is one table of routing policy objects.
pub fn one_irr_table()
    ensures some { (text : List ℕ) → (table : Table) × IsIrrTable text table }
    ensures one { (text : List ℕ) (table other : Table) → IsIrrTable text table
        → IsIrrTable text other → table ≡ other }
{}
