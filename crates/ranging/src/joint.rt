// The joint range of a·u² and b·u for u from -1 to 1.
ghost use Rattle.std.specs.Prelude.{◌≡◌, ◌^◌, pos, ◌*ℤ◌, neg_ℤ, ◌<ℤ◌};
ghost use Rattle.std.specs.Int.{int_div_euclid};
ghost use Rattle.interval.specs.Interval.{limit, interval, Bounded};
ghost use Rattle.polynomial.specs.Quadratic.{vertex_down, vertex_up, turns, at_ends, spanned, joint};

use interval::Interval;

// z divided by n, rounded down.
fn floor(z: i64, n: i64) -> i64
    requires { (Bounded (2 ^ 62) z) × (pos 0 <ℤ n) }
    ensures value { result ≡ int_div_euclid z n }
    ensures bound { Bounded (2 ^ 62) result }
{
    z.div_euclid(n)
}

// z divided by n, rounded down and rounded up.
fn rounded(z: i64, n: i64) -> Interval
    requires { (Bounded (2 ^ 62) z) × (pos 0 <ℤ n) }
    ensures value { result ≡ interval (int_div_euclid z n) (neg_ℤ (int_div_euclid (neg_ℤ z) n)) }
{
    Interval {
        lower: floor(z, n),
        upper: -floor(-z, n),
    }
}

// The least interval that holds both.
fn spanned(i: Interval, j: Interval) -> Interval
    ensures value { result ≡ spanned i j }
{
    Interval {
        lower: i.lower.min(j.lower),
        upper: i.upper.max(j.upper),
    }
}

// a·u² + b·u, by its two coefficients.
#[derive(Clone, Copy)]
pub struct Parabola {
    pub square: i64,
    pub linear: i64,
    ghost square_fits: { Bounded limit square },
    ghost linear_fits: { Bounded limit linear },
}

impl Parabola {
    // b².
    fn linear_squared(self) -> i64
        ensures value { result ≡ self.linear *ℤ self.linear }
        ensures bound { Bounded (2 ^ 62) result }
    {
        self.linear * self.linear
    }

    // The vertex -b²/(4a), rounded down and rounded up.
    fn vertex(self) -> Interval
        ensures value { result ≡ interval (vertex_down self.square self.linear) (vertex_up self.square self.linear) }
    {
        if self.square > 0 {
            return rounded(-self.linear_squared(), 4 * self.square);
        }
        if self.square < 0 {
            return rounded(self.linear_squared(), -4 * self.square);
        }
        Interval::ZERO
    }

    // The vertex lies between u = -1 and u = 1.
    fn turns(self) -> bool
        ensures value { result ≡ turns self.square self.linear }
    {
        self.linear.unsigned_abs() <= 2 * self.square.unsigned_abs()
    }

    // From the lesser to the greater value at u = -1 and u = 1.
    fn at_ends(self) -> Interval
        ensures value { result ≡ at_ends self.square self.linear }
    {
        let left = self.square - self.linear;
        let right = self.square + self.linear;
        Interval {
            lower: left.min(right),
            upper: left.max(right),
        }
    }

    // The values at both ends and, where the parabola turns between them, at its vertex.
    pub fn range(self) -> Interval
        ensures value { result ≡ joint self.square self.linear }
    {
        let ends = self.at_ends();
        if self.turns() {
            spanned(self.vertex(), ends)
        } else {
            ends
        }
    }
}
