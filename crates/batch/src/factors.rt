// The monomial that factors spell.
ghost use Rattle.std.specs.Prelude.{◌≡◌, map};
ghost use Rattle.batch.specs.Factors.{factor_pair, power_of, placed, factor_of, raised, monomial_of};
ghost use Rattle.batch.specs.Inputs.{names_of};
ghost use Rattle.batch.specs.Statements.{read_as};
ghost use Rattle.batch.specs.Words.{token};

use crate::factor::Factor;
use crate::fault::{Fault, Mistake};
use crate::inputs::Inputs;
use crate::statement::whole_number;
use crate::words::Word;
use interval::Reason;
use table::{Monomial, degree};

// What stands after `^` in a word.
#[tactic(auto, unfolding(crate::specs::Factors::power_of))]
fn read_power<'a>(text: &str, word: &'a str) -> Result<u8, Fault<'a>>
    ensures value { read_as (λ k. k) result ≡ power_of text.now word.now }
{
    let power = whole_number(text).ok_or(Fault::Mistaken(Mistake::NotAFactor, word))?;
    if power > 8 {
        return Err(Fault::Refused(Reason::ExponentTooLarge, word));
    }
    Ok(power as u8)
}

#[tactic(auto, unfolding(crate::specs::Factors::placed))]
fn place<'a>(inputs: &Inputs, name: &'a str, power: u8) -> Result<Factor, Fault<'a>>
    ensures value { read_as factor_pair result ≡ placed (names_of inputs.now) name.now power }
{
    let found = inputs.place(name);
    let place = found.ok_or(Fault::Mistaken(Mistake::NoInput, name))?;
    Ok(Factor { place, power })
}

// `NAME` or `NAME^K`.
fn read_factor<'a>(inputs: &Inputs, word: &'a str) -> Result<Factor, Fault<'a>>
    ensures value { read_as factor_pair result ≡ factor_of (names_of inputs.now) word.now }
{
    match word.split_once('^') {
        Some((name, exponent)) => {
            let power = read_power(exponent, word)?;
            place(inputs, name, power)
        }
        None => place(inputs, word, 1),
    }
}

// None where the degree would pass the order.
#[tactic(auto, unfolding(crate::specs::Factors::raised))]
fn times(monomial: Monomial, factor: Factor, order: u8) -> Option<Monomial>
    ensures value { result ≡ raised order monomial (factor_pair factor) }
{
    if degree(monomial) + factor.power as u32 > order as u32 {
        return None;
    }
    let mut product = monomial;
    product[factor.place] += factor.power;
    Some(product)
}

// The product of the factors, where its degree does not pass the order.
pub fn monomial_of<'a>(
    inputs: &Inputs,
    order: u8,
    factors: &[Word<'a>],
) -> Result<Monomial, Fault<'a>>
    ensures value { read_as (λ m. m) result ≡ monomial_of (names_of inputs.now) order (map token factors.now) }
{
    let mut monomial = [0; 6];
    for word in factors {
        let factor = read_factor(inputs, word.text)?;
        let product = times(monomial, factor, order);
        monomial = product.ok_or(Fault::Mistaken(Mistake::AboveOrder, word.text))?;
    }
    Ok(monomial)
}
