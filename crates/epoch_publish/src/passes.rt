//! A list of passes.
ghost use Rattle.std.specs.Prelude.{◌≡◌, [], ◌∷◌, ◌++◌, IfSome, IfNone, OnOk, OnErr};
ghost use Rattle.std.specs.Borrow.{sem};
ghost use Rattle.epoch_publish.specs.Lending.{LendsItems};

use crate::history::Naming;
use crate::pass::Pass;
use std::alloc::Global;
use std::marker::Model;
use urpf_base::OutOfMemory;

/// A list of passes. Contracts see the list.
#[derive(Drop)]
pub struct Passes<J: Naming> {
    items: Vec<Pass<J>>,
}

impl<J: Naming> Model for Passes<J> {
    ghost use Rattle.std.specs.Prelude.{List};
    ghost use Rattle.epoch_publish.specs.Publications.{Known};

    ghost Value = { List Known };

    ghost view = { λ p. p.items.items };
}

impl<J: Naming> Passes<J> {
    /// The list of no pass. It takes no memory.
    pub fn new(alloc: Global) -> Passes<J>
        ensures { result ≡ [] }
    {
        Passes {
            items: Vec::new(alloc),
        }
    }

    /// The list of these passes.
    pub(crate) fn of(items: Vec<Pass<J>>) -> Passes<J>
        ensures { result ≡ items.items }
    {
        Passes { items }
    }

    /// Appends a pass. Where memory is refused nothing is changed.
    pub fn push(&mut self, pass: Pass<J>) -> Result<(), OutOfMemory>
        ensures ok { OnOk result (self.new ≡ self.old ++ pass ∷ []) }
        ensures err { OnErr result (self.new ≡ self.old) }
    {
        let Ok(()) = self.items.push(pass) else {
            return Err(OutOfMemory);
        };
        Ok(())
    }

    /// Takes the last pass out. None where there is none.
    pub fn pop(&mut self) -> Option<Pass<J>>
        ensures some { IfSome result (λ pass. self.old ≡ self.new ++ pass ∷ []) }
        ensures none { IfNone result ((self.old ≡ []) × (self.new ≡ [])) }
    {
        self.items.pop()
    }

    /// The passes in their order.
    pub fn items(&self) -> &[Pass<J>]
        ensures { result.now ≡ self.now }
    {
        &self.items
    }

    /// The passes in their order, for use.
    pub fn items_mut(&mut self) -> &mut [Pass<J>]
        ensures* writes_back { sem 𝓛 (LendsItems J.row J.Naming self.entry result) }
        ensures value { result.now ≡ self.old }
    {
        &mut self.items
    }
}
