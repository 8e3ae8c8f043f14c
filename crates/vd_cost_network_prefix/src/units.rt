//! Whole units of cost.

ghost use Rattle.std.specs.Prelude.{◌≡◌};
ghost use Rattle.vd_space.specs.Network.{units};
ghost use Rattle.vd_space_prefix.specs.Transfers.{IsWithin};

/// How many parts a unit of cost has.
const PARTS: u64 = 256;

/// No list costs so many units.
const MOST_UNITS: i64 = 4_294_967_296;

/// So many parts in units, rounded up. Less than nothing counts nothing, and no more counts than what no list costs.
pub fn whole_units(parts: i128) -> i64
    ensures units { result ≡ units parts }
    ensures within { IsWithin 4294967296 result }
{
    if parts <= 0 {
        0
    } else if parts >= 1_099_511_627_776 {
        MOST_UNITS
    } else {
        (parts as u64).div_ceil(PARTS) as i64
    }
}
