// Kinds of coefficient.
ghost use Rattle.std.specs.Prelude.{◌≡◌};
ghost use Rattle.interval.specs.Interval.{Fits};
ghost use Rattle.interval.specs.Scale.{per_unit};
ghost use Rattle.interval.specs.Kind.{KindMeaning, Splits};

use crate::marks::Interval;
use crate::scale::Scale;

// Tells its scale, and splits any interval that fits into a coefficient and a leftover.
pub trait Kind {
    ghost meaning: { Self → KindMeaning };

    fn scale(&self) -> Scale
        ensures value { per_unit result ≡ (meaning self.now).scale };

    fn split(&self, i: Interval) -> (Interval, Interval)
        requires { Fits i }
        ensures value { result ≡ (meaning self.now).split i }
        ensures laws { Splits i result };
}
