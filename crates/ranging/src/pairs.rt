// Each term's part of the quadratic range.
ghost use Rattle.std.specs.Prelude.{◌≡◌};
ghost use Rattle.interval.specs.Interval.{Fits};
ghost use Rattle.polynomial.specs.Quadratic.{point, paired, part};
ghost use Rattle.table.specs.Monomial.{degree};

use crate::joint::Parabola;
use interval::Interval;
use polynomial::{Polynomial, Term, coefficient_at, reach};
use table::{Monomial, all_even, degree, product, square_root};

// A term stands there, and its ends are equal.
fn is_point(c: Interval) -> bool
    ensures value { result ≡ point c }
{
    !c.is_zero() && c.upper <= c.lower && c.lower <= c.upper
}

// The terms of u and u² both stand, with equal ends.
fn is_paired(terms: &[Term], u: Monomial) -> bool
    requires { degree u ≡ 1 }
    ensures value { result ≡ paired terms.now u }
{
    is_point(coefficient_at(terms, u)) && is_point(coefficient_at(terms, product(u, u)))
}

// The part of a term: a pair's stands at its square, as their joint range, and its linear term has none.
pub fn part(polynomial: Polynomial<'_>, t: Term) -> Interval
    requires { Fits t.coefficient }
    ensures value { result ≡ part polynomial.entry.terms.now t }
{
    let terms = polynomial.terms;
    let monomial = t.monomial;
    match degree(monomial) {
        1 if is_paired(terms, monomial) => Interval::ZERO,
        2 if all_even(monomial) && is_paired(terms, square_root(monomial)) => Parabola {
            square: t.coefficient.lower,
            linear: coefficient_at(terms, square_root(monomial)).lower,
        }
        .range(),
        _ => reach(monomial, t.coefficient),
    }
}
