// The kinds whole, fixed and interval.
ghost use Rattle.std.specs.Prelude.{◌≡◌};
ghost use Rattle.interval.specs.Interval.{Fits};
ghost use Rattle.interval.specs.Kind.{Splits};
ghost use Rattle.interval.specs.NamedKinds.{point_split, whole_kind, fixed_kind, interval_kind};

use crate::kind::Kind;
use crate::marks::Interval;
use crate::scale::Scale;

// The coefficient is the lower end and the leftover the width; a mark is a unit. The fixed kind differs only in its scale: as one type
// with the exponent as a const parameter, each would need a ghost field for its bound and a constructor, more than its two lines.
#[derive(Clone, Copy, Debug)]
pub struct WholeKind;

// The same split; a mark is 1/65536 of a unit.
#[derive(Clone, Copy, Debug)]
pub struct FixedKind;

// The coefficient is the interval itself; a mark is 1/65536 of a unit.
#[derive(Clone, Copy, Debug)]
pub struct IntervalKind;

// The lower end twice, and the width.
fn point_split(i: Interval) -> (Interval, Interval)
    requires { Fits i }
    ensures value { result ≡ point_split i }
    ensures laws { Splits i result }
{
    (
        Interval::point(i.lower),
        Interval {
            lower: 0,
            upper: i.upper - i.lower,
        },
    )
}

impl Kind for WholeKind {
    ghost meaning = { λ _. whole_kind };

    fn scale(&self) -> Scale {
        Scale::unit()
    }

    fn split(&self, i: Interval) -> (Interval, Interval) {
        point_split(i)
    }
}

impl Kind for FixedKind {
    ghost meaning = { λ _. fixed_kind };

    fn scale(&self) -> Scale {
        Scale::fine()
    }

    fn split(&self, i: Interval) -> (Interval, Interval) {
        point_split(i)
    }
}

impl Kind for IntervalKind {
    ghost meaning = { λ _. interval_kind };

    fn scale(&self) -> Scale {
        Scale::fine()
    }

    fn split(&self, i: Interval) -> (Interval, Interval) {
        (i, Interval::ZERO)
    }
}
