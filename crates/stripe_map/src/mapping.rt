ghost use Rattle.std.specs.Prelude.{◌≡◌, ◌<◌, ◌^◌};
ghost use Rattle.flr_base.specs.Stripes.{IsStripe};
ghost use Rattle.stripe_map.specs.Places.{back_of, place_of};

use crate::places::Place;
use flr_base::Stripe;

/// The place of a byte of the file, by RAID0: the stripe units go round the stripes in turn, one
/// unit to each, and each object holds the units of its stripe one after another.
pub fn place(x: u64, stripe: Stripe) -> Place
    requires striped { IsStripe stripe }
    requires below { x < 2 ^ 40 }
    ensures raid0 { result ≡ place_of x stripe }
    ensures undone { back_of result stripe ≡ x }
{
    let unit = x / stripe.size;
    let count = u64::from(stripe.count);
    Place {
        index: (unit % count) as u32,
        offset: x / (stripe.size * count) * stripe.size + x % stripe.size,
    }
}

/// The byte of the file that a place holds, the inverse of [`place`].
pub fn back(place: Place, stripe: Stripe) -> u64
    requires striped { IsStripe stripe }
    requires index { place.index < stripe.count }
    requires below { place.offset < 2 ^ 40 }
    ensures byte { result ≡ back_of place stripe }
    ensures undone { place_of result stripe ≡ place }
{
    let row = place.offset / stripe.size;
    let unit = row * u64::from(stripe.count) + u64::from(place.index);
    unit * stripe.size + place.offset % stripe.size
}
