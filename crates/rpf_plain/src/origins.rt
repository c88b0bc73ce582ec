//! What is known of each origin AS.
ghost use Rattle.std.specs.Prelude.{◌≡◌, ◌↔◌, ◌⊎◌, ℕ, IfOk, OnOk, IsTrue, Some};
ghost use Rattle.urpf_base.specs.Masks.{InMask};
ghost use Rattle.rpf_plain.specs.Kept.{each_row};
ghost use Rattle.rpf_plain.specs.Walks.{AreReaches, no_reach, reach_at, reach_of};

use crate::ahead::Ahead;
use crate::row_map::RowMap;
use std::alloc::Global;
use std::collections::BTreeMap;
use std::collections::btree_map::Keys;
use urpf_base::{IfaceId, Mask, Origin, OutOfMemory};

/// What is known of an origin AS.
#[derive(Clone, Copy, Debug, PartialEq, Eq)]
pub struct Reach {
    /// The interfaces that have a prefix of it.
    pub ifaces: Mask,
    /// The interfaces that have a row of it.
    pub own: Mask,
    /// Whether it is in Set A.
    pub in_set_a: bool,
}

impl Reach {
    /// What is known of an AS that no row has as its origin.
    pub fn none() -> Reach
        ensures { result ≡ no_reach }
    {
        Reach {
            ifaces: Mask::empty(),
            own: Mask::empty(),
            in_set_a: false,
        }
    }

    /// What is known once the interface has a row of the origin, whose prefix these interfaces have.
    fn with(self, ifaces: Mask, own: IfaceId, customer: bool) -> Reach
        ensures ifaces { (i : ℕ) → (InMask result.ifaces i ↔ (InMask self.ifaces i ⊎ InMask ifaces i)) }
        ensures own { (i : ℕ) → (InMask result.own i ↔ (InMask self.own i ⊎ (own ≡ i))) }
        ensures in_set_a { IsTrue result.in_set_a ↔ (IsTrue self.in_set_a ⊎ IsTrue customer) }
    {
        Reach {
            ifaces: self.ifaces.union(ifaces),
            own: self.own.with(own),
            in_set_a: self.in_set_a || customer,
        }
    }
}

/// What is known of each origin AS.
#[derive(Drop)]
pub struct Origins {
    reaches: BTreeMap<u32, Reach>,
}

impl Origins {
    /// No origins. It takes no memory.
    fn new(alloc: Global) -> Origins
        ensures { (a : ℕ) → reach_at result.reaches a ≡ no_reach }
    {
        Origins {
            reaches: BTreeMap::new(alloc),
        }
    }

    /// What is known of an origin.
    pub fn reach(&self, origin: u32) -> Reach
        ensures { result ≡ reach_at self.now.reaches origin }
    {
        match self.reaches.get(&origin) {
            Some(reach) => *reach,
            None => Reach::none(),
        }
    }

    /// What is known of the origin of a row.
    pub fn of(&self, origin: Origin) -> Reach
        ensures { result ≡ reach_of self.now.reaches origin }
    {
        match origin {
            Some(origin) => self.reach(origin),
            None => Reach::none(),
        }
    }

    /// How many origins there are.
    pub fn count(&self) -> usize {
        self.reaches.len()
    }

    /// The numbers of the origins.
    pub fn numbers(&self) -> Keys<'_, u32, Reach> {
        self.reaches.keys()
    }

    /// The interface has a row of this origin, and these interfaces have its prefix.
    fn add(
        &mut self,
        origin: Origin,
        ifaces: Mask,
        own: IfaceId,
        customer: bool,
    ) -> Result<(), OutOfMemory>
        ensures ifaces { OnOk result ((a i : ℕ) → InMask (reach_at self.new.reaches a).ifaces i
            ↔ (InMask (reach_at self.old.reaches a).ifaces i ⊎ ((origin ≡ Some a) × InMask ifaces i))) }
        ensures own { OnOk result ((a i : ℕ) → InMask (reach_at self.new.reaches a).own i
            ↔ (InMask (reach_at self.old.reaches a).own i ⊎ ((origin ≡ Some a) × (own ≡ i)))) }
        ensures in_set_a { OnOk result ((a : ℕ) → IsTrue (reach_at self.new.reaches a).in_set_a
            ↔ (IsTrue (reach_at self.old.reaches a).in_set_a ⊎ ((origin ≡ Some a) × IsTrue customer))) }
    {
        let Some(origin) = origin else {
            return Ok(());
        };
        let Ok(entry) = self.reaches.entry(origin) else {
            return Err(OutOfMemory);
        };
        let reach = entry.or_insert(Reach::none());
        *reach = reach.with(ifaces, own, customer);
        Ok(())
    }
}

/// The first walk: of each origin, which interfaces have a prefix of it, which have a row of it, and
/// whether it is in Set A.
pub fn reaches(alloc: Global, rows: &RowMap, customers: Mask) -> Result<Origins, OutOfMemory>
    ensures { IfOk result (λ origins. AreReaches (each_row rows.now) customers origins.reaches) }
{
    let mut ahead = Ahead::over(rows);
    let mut origins = Origins::new(alloc);
    for row in rows.rows() {
        let ifaces = ahead.ifaces(&row.prefix);
        origins.add(row.origin, ifaces, row.iface, customers.has(row.iface))?;
    }
    Ok(origins)
}
