// The words of a call, and what each says.
ghost use Rattle.std.specs.Prelude.{◌≡◌, ◌+◌, ◌<◌, IfOk};
ghost use Rattle.interval.specs.Interval.{Fits};

use crate::fault::Fault;
use crate::operands::is_fitting;
use interval::{Interval, Scale};
use std::num::f64_from_bits_with_nan;
use std::str::SplitWhitespace;
use table::Monomial;

#[derive(Drop)]
pub struct Words<'a> {
    rest: SplitWhitespace<'a>,
}

impl<'a> From<&'a str> for Words<'a> {
    fn from(text: &'a str) -> Words<'a> {
        Words {
            rest: text.split_whitespace(),
        }
    }
}

impl<'a> Words<'a> {
    pub fn word(&mut self) -> Result<&'a str, Fault> {
        self.rest.next().ok_or(Fault::Unreadable)
    }

    // No word is left.
    pub fn end(&mut self) -> Result<(), Fault> {
        match self.rest.next() {
            None => Ok(()),
            Some(_) => Err(Fault::Unreadable),
        }
    }

    pub fn number(&mut self) -> Result<i64, Fault> {
        Ok(self.word()?.parse::<i64>()?)
    }

    // A binary64 by its bit pattern.
    pub fn real(&mut self) -> Result<f64, Fault> {
        let word = self.word()?;
        if word.len() != 16 {
            return Err(Fault::Unreadable);
        }
        Ok(f64_from_bits_with_nan(u64::from_str_radix(word, 16)?))
    }

    pub fn scale(&mut self) -> Result<Scale, Fault> {
        let marks = self.word()?.parse::<u32>()?;
        Scale::new(marks).ok_or(Fault::Unreadable)
    }

    // Two ends that fit, the lower first.
    pub fn fitting(&mut self) -> Result<Interval, Fault>
        ensures made { IfOk result Fits }
    {
        let lower = self.number()?;
        let upper = self.number()?;
        let i = Interval { lower, upper };
        if !is_fitting(i) {
            return Err(Fault::Unreadable);
        }
        Ok(i)
    }

    // Six exponents, a digit each.
    pub fn monomial(&mut self) -> Result<Monomial, Fault> {
        let word = self.word()?;
        if word.len() != 6 {
            return Err(Fault::Unreadable);
        }
        let mut exponents = [0; 6];
        for (exponent, digit) in exponents.iter_mut().zip(word.bytes()) {
            *exponent = digit_value(digit)?;
        }
        Ok(exponents)
    }
}

// By the byte: a char's `to_digit` gives a u32, which would have to be narrowed again.
fn digit_value(byte: u8) -> Result<u8, Fault>
    ensures made { IfOk result (λ d. (d < 10) × (d + 48 ≡ byte)) }
{
    match byte {
        b'0'..=b'9' => Ok(byte - b'0'),
        _ => Err(Fault::Unreadable),
    }
}
