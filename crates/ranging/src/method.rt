// Ranging methods.
ghost use Rattle.std.specs.Prelude.{◌≡◌};
ghost use Rattle.polynomial.specs.Method.{MethodMeaning, Ranges};

use interval::Interval;
use polynomial::Polynomial;

// Turns any polynomial whose coefficients fit into a range.
pub trait Ranging {
    ghost meaning: { Self → MethodMeaning };

    fn range(&self, polynomial: Polynomial<'_>) -> Interval
        ensures value { result ≡ (meaning self.now).range polynomial.entry.terms.now }
        ensures laws { Ranges polynomial.entry.terms.now result };
}
