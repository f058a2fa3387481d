// The arithmetic of intervals, rounded outward.
ghost use Rattle.std.specs.Prelude.{◌≡◌, ◌^◌, ◌*ℤ◌};
ghost use Rattle.interval.specs.Interval.{limit, interval, Bounded, Fits, Summable, fits, is_zero, floor_div, ceil_div};
ghost use Rattle.interval.specs.Interval.{plus, minus, negated, meet, times, even_reach, full_reach};
ghost use Rattle.interval.specs.Scale.{per_unit};

use crate::marks::{Interval, LIMIT};
use crate::scale::Scale;

fn product(a: i64, b: i64) -> i64
    requires { (Bounded limit a) × (Bounded limit b) }
    ensures value { result ≡ a *ℤ b }
    ensures bound { Bounded (2 ^ 62) result }
{
    a * b
}

// Both divided by the scale, the first rounded down and the second up.
fn rounded_out(least: i64, greatest: i64, scale: Scale) -> Interval
    requires { (Bounded (2 ^ 62) least) × (Bounded (2 ^ 62) greatest) }
    ensures value { result ≡ interval (floor_div least (per_unit scale)) (ceil_div greatest (per_unit scale)) }
{
    let bits = scale.bits();
    Interval {
        lower: least >> bits,
        upper: -((-greatest) >> bits),
    }
}

impl Interval {
    // One number of marks.
    pub fn point(marks: i64) -> Interval
        ensures value { result ≡ interval marks marks }
    {
        Interval {
            lower: marks,
            upper: marks,
        }
    }

    // Both ends lie from -LIMIT to LIMIT.
    pub fn fits(self) -> bool
        ensures value { result ≡ fits self }
    {
        -LIMIT <= self.lower && self.upper <= LIMIT
    }

    pub fn is_zero(self) -> bool
        ensures value { result ≡ is_zero self }
    {
        self.lower == 0 && self.upper == 0
    }

    pub fn plus(self, other: Interval) -> Interval
        requires { (Summable self) × (Summable other) }
        ensures value { result ≡ plus self other }
    {
        Interval {
            lower: self.lower + other.lower,
            upper: self.upper + other.upper,
        }
    }

    pub fn minus(self, other: Interval) -> Interval
        requires { (Summable self) × (Summable other) }
        ensures value { result ≡ minus self other }
    {
        Interval {
            lower: self.lower - other.upper,
            upper: self.upper - other.lower,
        }
    }

    pub fn negated(self) -> Interval
        requires { Summable self }
        ensures value { result ≡ negated self }
    {
        Interval {
            lower: -self.upper,
            upper: -self.lower,
        }
    }

    // What both have in common, where they have anything in common.
    pub fn meet(self, other: Interval) -> Interval
        ensures value { result ≡ meet self other }
    {
        Interval {
            lower: self.lower.max(other.lower),
            upper: self.upper.min(other.upper),
        }
    }

    // From the least product of ends, rounded down to a mark, to the greatest, rounded up.
    pub fn times(self, other: Interval, scale: Scale) -> Interval
        requires { (Fits self) × (Fits other) }
        ensures value { result ≡ times (per_unit scale) self other }
    {
        let ll = product(self.lower, other.lower);
        let lu = product(self.lower, other.upper);
        let ul = product(self.upper, other.lower);
        let uu = product(self.upper, other.upper);
        let least = ll.min(lu).min(ul.min(uu));
        let greatest = ll.max(lu).max(ul.max(uu));
        rounded_out(least, greatest, scale)
    }

    // What the interval times a number from 0 to 1 lies in.
    pub fn even_reach(self) -> Interval
        ensures value { result ≡ even_reach self }
    {
        Interval {
            lower: self.lower.min(0),
            upper: self.upper.max(0),
        }
    }

    // What the interval times a number from -1 to 1 lies in.
    pub fn full_reach(self) -> Interval
        requires { Summable self }
        ensures value { result ≡ full_reach self }
    {
        let magnitude = self.upper.max(-self.lower);
        Interval {
            lower: -magnitude,
            upper: magnitude,
        }
    }
}
