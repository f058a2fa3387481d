// A kind that leaves everything over: no coefficient survives a split, and all is carried in the remainder.
ghost use Rattle.custom.specs.Leaving.{leaving_kind};

use interval::{Interval, Kind, Scale};

#[derive(Clone, Copy, Debug)]
pub struct LeavingKind;

impl Kind for LeavingKind {
    ghost meaning = { λ _. leaving_kind };

    fn scale(&self) -> Scale {
        Scale::unit()
    }

    fn split(&self, i: Interval) -> (Interval, Interval) {
        (Interval::ZERO, i)
    }
}
