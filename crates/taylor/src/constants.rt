// Models of constants and variables.
ghost use Rattle.std.specs.Prelude.{◌≡◌, ◌<◌};
ghost use Rattle.interval.specs.Interval.{Fits};
ghost use Rattle.taylor.specs.Arithmetic.{constant, variable_model};
ghost use Rattle.taylor.specs.Model.{packed};

use crate::model::ModelRecord;
use interval::{Interval, Kind, Variable};
use polynomial::{Term, ZERO_TERM, drop_zeros};

// Splits the interval: the coefficient is the constant term, the leftover the remainder.
#[tactic(auto, unfolding(crate::specs::Arithmetic::constant))]
pub fn constant<K: Kind>(kind: &K, i: Interval) -> ModelRecord
    requires { Fits i }
    ensures value { result ≡ packed (constant (K.meaning kind.now) i) }
{
    let (coefficient, leftover) = kind.split(i);
    let mut terms = [ZERO_TERM; 40];
    terms[0] = Term {
        monomial: [0; 6],
        coefficient,
    };
    let count = drop_zeros(&mut terms, 1);
    ModelRecord {
        count,
        terms,
        remainder: leftover,
    }
}

// Variable `number` is its centre plus its half width times its unit coordinate.
#[tactic(auto, unfolding(crate::specs::Arithmetic::variable_model))]
pub fn variable(number: usize, of: &Variable) -> ModelRecord
    requires { number < 6 }
    ensures value { result ≡ packed (variable_model number of.now) }
{
    let mut linear = [0; 6];
    linear[number] = 1;
    let mut terms = [ZERO_TERM; 40];
    terms[0] = Term {
        monomial: [0; 6],
        coefficient: Interval::point(of.centre),
    };
    terms[1] = Term {
        monomial: linear,
        coefficient: Interval::point(of.half),
    };
    let count = drop_zeros(&mut terms, 2);
    ModelRecord {
        count,
        terms,
        remainder: Interval::ZERO,
    }
}
