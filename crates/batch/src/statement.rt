// A statement, read from the words of a line.
ghost use Rattle.std.specs.Prelude.{◌≡◌, map};
ghost use Rattle.batch.specs.Words.{token};
ghost use Rattle.batch.specs.Statements.{name_byte, name_goes_on, is_name, whole_number, said, read_as, number_said, sole_of, kind_said, method_said, order_said, input_said, term_said, range_said, said_by};

use crate::fault::{Fault, Mistake};
use crate::kind::KindChoice;
use crate::method::MethodChoice;
use crate::words::Word;

#[derive(Clone, Copy, Debug, PartialEq)]
pub enum Statement<'w, 'a> {
    // a line with no word: a statement too, since the desk takes each line alike
    Nothing,
    Kind(KindChoice),
    Method(MethodChoice),
    Order(u64),
    Input {
        name: &'a str,
        low: f64,
        high: f64,
    },
    Term {
        coefficient: f64,
        factors: &'w [Word<'a>],
    },
    Range,
}

// A letter, a digit or `_`.
fn is_name_byte(byte: u8) -> bool
    ensures value { result ≡ name_byte byte }
{
    byte.is_ascii_alphanumeric() || byte == b'_'
}

fn name_goes_on(bytes: &[u8]) -> bool
    ensures value { result ≡ name_goes_on bytes.now }
{
    bytes.iter().all(|byte| is_name_byte(*byte))
}

// A letter, then letters, digits and `_`.
pub fn is_name(text: &str) -> bool
    ensures value { result ≡ is_name text.now }
{
    match text.as_bytes() {
        [first, rest @ ..] => first.is_ascii_alphabetic() && name_goes_on(rest),
        [] => false,
    }
}

// Digits, perhaps with a `+` in front.
pub fn whole_number(text: &str) -> Option<u64>
    ensures value { result ≡ whole_number text.now }
{
    text.parse::<u64>().ok()
}

fn number<'a>(word: &Word<'a>) -> Result<f64, Fault<'a>>
    ensures value { read_as (λ x. x) result ≡ number_said (token word.now) }
{
    word.number
        .ok_or(Fault::Mistaken(Mistake::NotANumber, word.text))
}

// The one word, where there is just one.
fn sole<'a>(words: &[Word<'a>], mistake: Mistake) -> Result<Word<'a>, Fault<'a>>
    ensures value { read_as token result ≡ sole_of mistake (map token words.now) }
{
    let [word] = words else {
        return Err(mistake.into());
    };
    Ok(*word)
}

fn kind<'w, 'a>(words: &'w [Word<'a>]) -> Result<Statement<'w, 'a>, Fault<'a>>
    ensures value { read_as said result ≡ kind_said (map token words.now) }
{
    let word = sole(words, Mistake::KindForm)?;
    let kind = KindChoice::named(word.text).ok_or(Mistake::KindForm)?;
    Ok(Statement::Kind(kind))
}

fn method<'w, 'a>(words: &'w [Word<'a>]) -> Result<Statement<'w, 'a>, Fault<'a>>
    ensures value { read_as said result ≡ method_said (map token words.now) }
{
    let method = MethodChoice::spelled(words).ok_or(Mistake::MethodForm)?;
    Ok(Statement::Method(method))
}

fn order<'w, 'a>(words: &'w [Word<'a>]) -> Result<Statement<'w, 'a>, Fault<'a>>
    ensures value { read_as said result ≡ order_said (map token words.now) }
{
    let word = sole(words, Mistake::OrderForm)?;
    let order = whole_number(word.text).ok_or(Mistake::OrderForm)?;
    Ok(Statement::Order(order))
}

fn input<'w, 'a>(words: &'w [Word<'a>]) -> Result<Statement<'w, 'a>, Fault<'a>>
    ensures value { read_as said result ≡ input_said (map token words.now) }
{
    let [name, low, high] = words else {
        return Err(Mistake::InputForm.into());
    };
    let name = name.text;
    if !is_name(name) {
        return Err(Fault::Mistaken(Mistake::NotAName, name));
    }
    let low = number(low)?;
    let high = number(high)?;
    Ok(Statement::Input { name, low, high })
}

fn term<'w, 'a>(words: &'w [Word<'a>]) -> Result<Statement<'w, 'a>, Fault<'a>>
    ensures value { read_as said result ≡ term_said (map token words.now) }
{
    let [first, factors @ ..] = words else {
        return Err(Mistake::TermForm.into());
    };
    let coefficient = number(first)?;
    Ok(Statement::Term {
        coefficient,
        factors,
    })
}

fn range<'w, 'a>(words: &'w [Word<'a>]) -> Result<Statement<'w, 'a>, Fault<'a>>
    ensures value { read_as said result ≡ range_said (map token words.now) }
{
    if words.is_empty() {
        Ok(Statement::Range)
    } else {
        Err(Mistake::RangeForm.into())
    }
}

// The first word says which statement it is. A match, since each form reads words of its own: a table would need pointers to functions.
#[tactic(auto, unfolding(crate::specs::Statements::said_from))]
pub fn read_statement<'w, 'a>(words: &'w [Word<'a>]) -> Result<Statement<'w, 'a>, Fault<'a>>
    ensures value { read_as said result ≡ said_by (map token words.now) }
{
    let [first, rest @ ..] = words else {
        return Ok(Statement::Nothing);
    };
    match first.text {
        "kind" => kind(rest),
        "method" => method(rest),
        "order" => order(rest),
        "input" => input(rest),
        "term" => term(rest),
        "range" => range(rest),
        _ => Err(Fault::Mistaken(Mistake::UnknownStatement, first.text)),
    }
}
