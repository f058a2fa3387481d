// Monomials by value: six exponents, one for each variable.
ghost use Rattle.std.specs.Prelude.{◌≡◌, ◌+◌, ◌≤◌};
ghost use Rattle.table.specs.Monomial.{degree, even, multiplied, root};

use std::array;

pub type Monomial = [u8; 6];

// The sum of the exponents.
pub fn degree(monomial: Monomial) -> u32
    ensures value { result ≡ degree monomial }
    ensures bound { result ≤ 1530 }
{
    monomial
        .iter()
        .map(|exponent| u32::from(*exponent))
        .sum::<u32>()
}

pub fn all_even(monomial: Monomial) -> bool
    ensures value { result ≡ even monomial }
{
    monomial.iter().all(|exponent| *exponent % 2 == 0)
}

// Adds the exponents place by place.
pub fn product(a: Monomial, b: Monomial) -> Monomial
    requires { degree a + degree b ≤ 255 }
    ensures value { result ≡ multiplied a b }
{
    array::from_fn(|i| a[i] + b[i])
}

// Halves the exponents.
pub fn square_root(monomial: Monomial) -> Monomial
    ensures value { result ≡ root monomial }
{
    monomial.map(|exponent| exponent / 2)
}
