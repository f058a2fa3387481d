// What an interval times a monomial reaches.
ghost use Rattle.std.specs.Prelude.{◌≡◌};
ghost use Rattle.interval.specs.Interval.{Summable};
ghost use Rattle.polynomial.specs.Reach.{reach};

use interval::Interval;
use table::{Monomial, all_even, degree};

// The interval times the monomial of any unit coordinates lies in it.
pub fn reach(monomial: Monomial, i: Interval) -> Interval
    requires { Summable i }
    ensures value { result ≡ reach monomial i }
{
    if degree(monomial) == 0 {
        return i;
    }
    if all_even(monomial) {
        return i.even_reach();
    }
    i.full_reach()
}

#[cfg(test)]
mod tests {
    use super::*;

    // As in the tests of other crates, which share no code with these.
    fn ends(lower: i64, upper: i64) -> Interval {
        Interval { lower, upper }
    }

    // The constant, a square, a product of two variables, a linear monomial, one with an odd exponent.
    #[test]
    fn reaches(rt: HostRuntime) {
        let i = Interval {
            lower: -3,
            upper: 5,
        };
        let above = Interval { lower: 2, upper: 7 };
        assert_eq!(rt; reach([0, 0, 0, 0, 0, 0], above), ends(2, 7));
        assert_eq!(rt; reach([0, 2, 0, 0, 0, 0], above), ends(0, 7));
        assert_eq!(rt; reach([2, 0, 0, 0, 4, 0], i), ends(-3, 5));
        assert_eq!(rt; reach([1, 1, 0, 0, 0, 0], above), ends(-7, 7));
        assert_eq!(rt; reach([0, 0, 0, 0, 0, 1], i), ends(-5, 5));
        assert_eq!(rt; reach([2, 3, 0, 0, 0, 0], i), ends(-5, 5));
    }
}
