//! The walk over two maps side by side, in the order of prefixes.
ghost use Rattle.std.specs.Prelude.{◌≡◌};
ghost use Rattle.std.specs.FinMap as map;
ghost use Rattle.std.specs.Iterator.{YieldsFirst, item_count};
ghost use Rattle.prefix_map.specs.Beside.{beside};

use crate::map::PrefixMap;
use crate::pairs::Pairs;
use std::cmp::Ordering;
use std::marker::Model;
use urpf_base::Prefix;

/// The prefixes of either map that are still to come, each with what the left and what the right
/// map has there.
#[derive(Drop)]
pub struct Beside<'a, V: Copy, W: Copy> {
    first_left: Option<(Prefix, V)>,
    left: Pairs<'a, V>,
    first_right: Option<(Prefix, W)>,
    right: Pairs<'a, W>,
}

impl<'a, V: Copy, W: Copy> Model for Beside<'a, V, W> {
    ghost use Rattle.std.specs.Prelude.{List, Option, IsTrue};
    ghost use Rattle.std.specs.Coded.{coded_list, coded_option, coded×};
    ghost use Rattle.std.specs.FinMap.{is_sorted};
    ghost use Rattle.urpf_base.specs.Address.{Block};
    ghost use Rattle.urpf_base.specs.Order.{prefix_order};
    ghost use Rattle.prefix_map.specs.Beside.{beside, led_by};
    ghost use Rattle.prefix_map.specs.Kept.{block_code};

    ghost Value = { List (Block × (Option V × Option W)) };

    ghost coded = { coded_list (coded× block_code (coded× (coded_option V.code) (coded_option W.code))) };

    ghost view = { λ b. beside (led_by b.first_left b.left) (led_by b.first_right b.right) };

    ghost invariant = { λ b. IsTrue (is_sorted prefix_order (led_by b.first_right b.right)) };
}

impl<'a, V: Copy, W: Copy> Beside<'a, V, W> {
    /// The walk over all prefixes of both maps.
    pub fn over(left: &'a PrefixMap<V>, right: &'a PrefixMap<W>) -> Beside<'a, V, W>
        ensures { result ≡ beside (map.entries left.now) (map.entries right.now) }
    {
        let mut left = left.pairs();
        let mut right = right.pairs();
        Beside {
            first_left: left.next(),
            left,
            first_right: right.next(),
            right,
        }
    }
}

impl<'a, V: Copy, W: Copy> Iterator for Beside<'a, V, W> {
    type Item = (Prefix, (Option<V>, Option<W>));

    ghost next_gives = { YieldsFirst (λ s. s) };

    ghost remaining = { item_count (λ s. s) };

    fn next(&mut self) -> Option<(Prefix, (Option<V>, Option<W>))> {
        let Some(left) = self.first_left else {
            let Some(right) = self.first_right else {
                return None;
            };
            self.first_right = self.right.next();
            return Some((right.0, (None, Some(right.1))));
        };
        let Some(right) = self.first_right else {
            self.first_left = self.left.next();
            return Some((left.0, (Some(left.1), None)));
        };
        match left.0.cmp(&right.0) {
            Ordering::Less => {
                self.first_left = self.left.next();
                Some((left.0, (Some(left.1), None)))
            }
            Ordering::Equal => {
                self.first_left = self.left.next();
                self.first_right = self.right.next();
                Some((left.0, (Some(left.1), Some(right.1))))
            }
            Ordering::Greater => {
                self.first_right = self.right.next();
                Some((right.0, (None, Some(right.1))))
            }
        }
    }
}
