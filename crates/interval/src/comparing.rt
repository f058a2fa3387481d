// Two binary64 values as numbers.
ghost use Rattle.std.specs.Prelude.{◌≡◌};
ghost use Rattle.interval.specs.Comparison.{compared};

use std::cmp::Ordering;

// The order of the two numbers, -0.0 and 0.0 being one; None where one is not finite.
pub fn compare(a: f64, b: f64) -> Option<Ordering>
    ensures value { result ≡ compared a b }
{
    if !a.is_finite() || !b.is_finite() {
        return None;
    }
    a.partial_cmp(&b)
}
