//! What is known of origin ASes once more, each at the place that its number gives, so that most are
//! found in one step.
ghost use Rattle.std.specs.Prelude.{◌≡◌, ◌++◌, ◌∷◌, [], ℕ, IfOk, OnOk};
ghost use Rattle.std.specs.BTreeMap.{BTreeMap};
ghost use Rattle.rpf_plain.specs.Walks.{ArePlaced, reach_at, reach_of};
ghost use Rattle.rpf_plain.specs.declared.origins.Reach.{Reach};

use crate::origins::{Origins, Reach};
use std::alloc::Global;
use urpf_base::{Origin, OutOfMemory};

/// Origin ASes with what is known of them. Of those whose numbers give one place it has one.
#[derive(Drop)]
pub struct Near {
    places: Vec<(u32, Reach)>,
}

impl Near {
    /// The origins at their places.
    pub fn placed(alloc: Global, origins: &Origins) -> Result<Near, OutOfMemory>
        ensures { IfOk result (λ near. ArePlaced origins.now.reaches near.places.items) }
    {
        let mut places = places_of(alloc, origins)?;
        for asn in origins.numbers() {
            put(&mut places, *asn, origins.reach(*asn));
        }
        Ok(Near { places })
    }

    /// What is known of the origin of a row.
    pub fn of(&self, origins: &Origins, origin: Origin) -> Reach
        requires { ArePlaced origins.now.reaches self.now.places.items }
        ensures { result ≡ reach_of origins.now.reaches origin }
    {
        match origin {
            Some(asn) => self.reach(origins, asn),
            None => Reach::none(),
        }
    }

    /// What is known of an origin: at its place, or where another one has that, among all.
    fn reach(&self, origins: &Origins, asn: u32) -> Reach
        requires { ArePlaced origins.now.reaches self.now.places.items }
        ensures { result ≡ reach_at origins.now.reaches asn }
    {
        let count = self.places.len();
        if count > 0 {
            let (there, reach) = self.places[asn as usize % count];
            if there == asn {
                return reach;
            }
        }
        origins.reach(asn)
    }
}

/// As many places as there are origins, with AS 0 at each.
fn places_of(alloc: Global, origins: &Origins) -> Result<Vec<(u32, Reach)>, OutOfMemory>
    ensures { IfOk result (λ places. ArePlaced origins.now.reaches places.items) }
{
    let count = origins.count();
    let Ok(mut places) = Vec::with_capacity(alloc, count) else {
        return Err(OutOfMemory);
    };
    let known = origins.reach(0);
    for _ in 0..count {
        append(&mut places, 0, &known)?;
    }
    Ok(places)
}

/// Appends a place with an origin at it.
fn append(places: &mut Vec<(u32, Reach)>, asn: u32, reach: &Reach) -> Result<(), OutOfMemory>
    ensures { OnOk result (places.new.items ≡ places.old.items ++ (asn, reach.now) ∷ []) }
{
    let Ok(()) = places.push((asn, *reach)) else {
        return Err(OutOfMemory);
    };
    Ok(())
}

/// Puts an origin at its place.
fn put(places: &mut Vec<(u32, Reach)>, asn: u32, reach: Reach)
    ensures { (origins : BTreeMap ℕ Reach) → reach ≡ reach_at origins asn
        → ArePlaced origins places.old.items → ArePlaced origins places.new.items }
{
    let count = places.len();
    if count > 0 {
        places[asn as usize % count] = (asn, reach);
    }
}
