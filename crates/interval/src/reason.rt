// Why something is refused, each reason with its number.
ghost use Rattle.std.specs.Prelude.{◌≡◌, Some};
ghost use Rattle.interval.specs.Reason.{number, words};

use std::fmt;

#[derive(Clone, Copy, Debug, PartialEq, Eq)]
pub enum Reason {
    // ---- opening
    // the order is 0 or above 8
    OrderOutOfRange = 1,
    // no variable, or more than 6
    VariablesOutOfRange = 2,
    // the allowance is 0 or above 1,000,000,000
    AllowanceOutOfRange = 3,
    // an end of a variable is a NaN or infinite
    EndNotFinite = 4,
    // a lower end is above its upper end
    EndsCrossed = 5,
    // the lower end's hull begins below -LIMIT, or the upper end's hull ends above LIMIT
    EndDoesNotFit = 6,
    // ---- posting, narrowing and striking
    // the office is 0 or above 255
    OfficeOutOfRange = 10,
    // 12 lines stand
    LinesFull = 11,
    // fewer than 21 working records are lent
    TooFewRecords = 12,
    // the text is empty or longer than 255 bytes
    TextOutOfRange = 13,
    // the office has no account, and 8 are open
    AccountsFull = 14,
    // ---- reading a token
    // the tag is none of c, v, l, ^, +, - and *
    UnknownTag = 20,
    // the text ends inside the token
    TextEnds = 21,
    // the variable's number is not below the number of variables
    NoSuchVariable = 23,
    // the line's number is not below the number of lines
    LineNotStanding = 24,
    // the exponent is above 8
    ExponentTooLarge = 25,
    // the constant is not finite, or its hull does not fit
    ConstantDoesNotFit = 26,
    // ---- running a token, the end of a text, and the account of its work
    // fewer operands stand than the token takes
    TooFewOperands = 30,
    // a ninth operand would stand
    TooManyOperands = 31,
    // the two operands of a sum together, or the kept pairs of a product, have more than 40 monomials
    TooManyMonomials = 32,
    // a product of intervals, or a part of a tested model, does not fit
    DoesNotFit = 33,
    // more than one operand stands at the end
    OperandsLeft = 34,
    // the pairs of the work and all accounts together pass the allowance
    AllowancePassed = 35,
    // ---- narrowing
    // the variable's number is not below the number of variables
    NoVariableToNarrow = 40,
    // a new end is not finite, or the ends are crossed
    NewEndsUnsound = 41,
    // a new end lies outside the standing ends
    EndOutside = 42,
    // ---- striking
    // no line stands
    NoLineToStrike = 50,
    // the newest line was posted by another office
    PostedByAnother = 51,
    // ---- readings
    // the line that is asked for does not stand
    NoLineToRead = 60,
    // the office has no account
    NoAccount = 61,
}

impl Reason {
    // The rules fix the numbers, so this is a cast of the enum and no conversion of its own.
    pub fn number(self) -> u8
        ensures value { result ≡ number self }
    {
        self as u8
    }

    // One clause of plain English for users.
    pub fn words(self) -> &'static str
        ensures value { result.now ≡ words self }
    {
        match self {
            Reason::OrderOutOfRange => "the order is not from 1 to 8",
            Reason::VariablesOutOfRange => "the number of variables is not from 1 to 6",
            Reason::AllowanceOutOfRange => "the allowance is not from 1 to 1000000000",
            Reason::EndNotFinite => "an end is not a finite number",
            Reason::EndsCrossed => "the lower end is above the upper end",
            Reason::EndDoesNotFit => "an end does not fit",
            Reason::OfficeOutOfRange => "the office is not from 1 to 255",
            Reason::LinesFull => "all lines are taken",
            Reason::TooFewRecords => "too few working records are lent",
            Reason::TextOutOfRange => "the text does not have 1 to 255 bytes",
            Reason::AccountsFull => "all accounts are taken",
            Reason::UnknownTag => "the tag is not known",
            Reason::TextEnds => "the text ends inside a token",
            Reason::NoSuchVariable => "there is no such variable",
            Reason::LineNotStanding => "the named line does not stand",
            Reason::ExponentTooLarge => "the exponent is above 8",
            Reason::ConstantDoesNotFit => "the constant is not finite or does not fit",
            Reason::TooFewOperands => "too few operands stand",
            Reason::TooManyOperands => "a ninth operand would stand",
            Reason::TooManyMonomials => "more than 40 monomials",
            Reason::DoesNotFit => "a product or a tested model does not fit",
            Reason::OperandsLeft => "more than one operand is left",
            Reason::AllowancePassed => "the allowance is passed",
            Reason::NoVariableToNarrow => "there is no such variable to narrow",
            Reason::NewEndsUnsound => "the new ends are not finite or are crossed",
            Reason::EndOutside => "a new end lies outside the standing ends",
            Reason::NoLineToStrike => "no line stands",
            Reason::PostedByAnother => "another office posted the newest line",
            Reason::NoLineToRead => "the line does not stand",
            Reason::NoAccount => "the office has no account",
        }
    }
}

// The words.
impl fmt::Display for Reason {
    ghost output = { λ x. Some (words x) };

    fn fmt<W: fmt::Write>(&self, f: &mut fmt::Formatter<W>) -> fmt::Result {
        f.write_str(self.words())
    }
}
