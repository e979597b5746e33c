ghost use Rattle.std.specs.Prelude.{◌≡◌, ◌≤◌, ◌<◌, ◌^◌, map, All, length};
ghost use Rattle.std.specs.Iterator.{YieldsFirst, item_count};
ghost use Rattle.flr_base.specs.Stripes.{IsStripe};
ghost use Rattle.stripe_map.specs.Cutting.{IsCut, Tile, cuts_of, unit_of_cut, units_of};

use crate::mapping::place;
use crate::places::Cut;
use flr_base::{Range, Stripe};
use std::marker::Model;

/// The parts into which the stripe units cut a range, in ascending order. Contracts see it as the
/// list of the parts that are left.
#[derive(Debug, Drop)]
pub struct Cuts {
    left: Range,
    stripe: Stripe,
}

impl Model for Cuts {
    ghost use Rattle.std.specs.Prelude.{List};
    ghost use Rattle.stripe_map.specs.declared.places.Cut.{Cut};
    ghost use Rattle.stripe_map.specs.Cutting.{cuts_of, CanCut};

    ghost Value = { List Cut };

    ghost view = { λ cuts. cuts_of cuts.left cuts.stripe };

    ghost invariant = { λ cuts. CanCut cuts.left cuts.stripe };
}

impl Iterator for Cuts {
    type Item = Cut;

    ghost next_gives = { YieldsFirst (λ cuts. cuts) };

    ghost remaining = { item_count (λ cuts. cuts) };

    fn next(&mut self) -> Option<Cut> {
        let start = self.left.start;
        if start >= self.left.end {
            return None;
        }
        let unit_end = (start / self.stripe.size + 1) * self.stripe.size;
        let end = unit_end.min(self.left.end);
        self.left.start = end;
        Some(Cut {
            range: Range { start, end },
            place: place(start, self.stripe),
        })
    }
}

/// Cuts a range of bytes of the file by stripe unit: one item for each unit that the range touches,
/// with the place of its first byte. A range without bytes has none. It takes no memory.
pub fn cut(range: Range, stripe: Stripe) -> Cuts
    requires striped { IsStripe stripe }
    requires below { range.end < 2 ^ 40 }
    ensures items { result ≡ cuts_of range stripe }
    ensures whole { range.start ≤ range.end → Tile (map (λ part. part.range) result) range.start range.end }
    ensures each { All (IsCut stripe) result }
    ensures units { map (unit_of_cut stripe) result ≡ units_of range stripe.size }
{
    Cuts {
        left: range,
        stripe,
    }
}
