// The hull of a binary64 value in marks.
ghost use Rattle.std.specs.Prelude.{◌≡◌, if◌then◌else◌, Some, None};
ghost use Rattle.interval.specs.Interval.{fits};
ghost use Rattle.interval.specs.Hull.{hulled};
ghost use Rattle.interval.specs.Scale.{per_unit};

use crate::marks::Interval;
use crate::scale::Scale;
use std::num::saturating_f64_to_i64;

fn fitted(i: Interval) -> Option<Interval>
    ensures value { result ≡ (if fits i then Some i else None) }
{
    i.fits().then_some(i)
}

impl Interval {
    // From the value times the scale rounded down to that rounded up; None where x is not finite or this does not fit.
    pub fn hull(x: f64, scale: Scale) -> Option<Interval>
        ensures value { result ≡ hulled (per_unit scale) x }
    {
        if x.abs() <= 2147483647.0 {
            // exact: a power of two times a value that is far from overflow
            let marks = x * scale.marks() as f64;
            let lower = saturating_f64_to_i64(marks.floor());
            let upper = saturating_f64_to_i64(marks.ceil());
            fitted(Interval { lower, upper })
        } else {
            None
        }
    }
}
