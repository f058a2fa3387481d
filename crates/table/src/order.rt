// Keys with a total order: offices by number, monomials by degree.
ghost use Rattle.std.specs.Prelude.{◌≡◌};
ghost use Rattle.std.specs.Cmp.Lexicographic.{slice_cmp};
ghost use Rattle.table.specs.Order.{Order, by_number, by_degree};
ghost use Rattle.std.specs.Ordering as StdOrdering;

use crate::exponents::{Monomial, degree};
use std::cmp::Ordering;

pub trait TotalOrder: Copy {
    ghost order: { Order Self };

    fn compare(self, other: Self) -> Ordering
        ensures value { result ≡ order.rank self other };
}

// An order of its own, since the library's order of six bytes is another one, and since equal ranks mean equal keys here, which
// the library's laws of an order leave open. One impl for both numbers would need a trait of numbers with three ghost members and
// an impl for each: longer than the two impls.
impl TotalOrder for u8 {
    ghost order = { by_number };

    fn compare(self, other: u8) -> Ordering {
        self.cmp(&other)
    }
}

impl TotalOrder for u64 {
    ghost order = { by_number };

    fn compare(self, other: u64) -> Ordering {
        u64::cmp(&self, &other)
    }
}

// The larger exponent at the first difference comes first.
fn compare_exponents(a: Monomial, b: Monomial) -> Ordering
    ensures value { result ≡ slice_cmp StdOrdering.nat_cmp b a }
{
    b.cmp(&a)
}

impl TotalOrder for Monomial {
    ghost order = { by_degree };

    fn compare(self, other: Monomial) -> Ordering {
        degree(self)
            .cmp(&degree(other))
            .then(compare_exponents(self, other))
    }
}
