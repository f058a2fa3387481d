// Marks as exact decimal numbers of units.
ghost use Rattle.std.specs.Prelude.{◌≡◌, ◌+◌, ◌*◌, ◌<◌, pos, Some, int_lt, unsigned_abs};
ghost use Rattle.std.specs.Fmt.{WritesOnOk, sign_text};
ghost use Rattle.interval.specs.Scale.{per_unit};
ghost use Rattle.batch.specs.Decimals.{sixteen_places, fraction_digits, decimal_of, decimal_text};

use interval::Scale;
use std::fmt;

// Sixteen places after the point suffice, since a unit has at most 2^16 marks.
#[derive(Clone, Copy, Debug, PartialEq, Eq)]
pub struct Decimal {
    // beside the whole number, since 0 has none to carry the sign of -0.5
    pub negative: bool,
    pub whole: u64,
    // in parts of 10^16
    pub fraction: u64,
}

const SIXTEEN_PLACES: u64 = 10_000_000_000_000_000; // 10^16

const FIRST_PLACE: u64 = 1_000_000_000_000_000; // 10^15

impl Decimal {
    #[tactic(auto, using(crate::proofs::Exactness::exact, crate::proofs::Exactness::small), unfolding(crate::specs::Decimals::decimal_of))]
    pub fn of_marks(marks: i64, scale: Scale) -> Decimal
        ensures value { result ≡ decimal_of scale.bits marks }
        ensures sign { result.negative ≡ int_lt marks (pos 0) }
        ensures exact { (result.whole * sixteen_places + result.fraction) * per_unit scale ≡ unsigned_abs marks * sixteen_places }
        ensures bound { result.fraction < sixteen_places }
    {
        let magnitude = marks.unsigned_abs();
        let unit = scale.marks() as u64;
        Decimal {
            negative: marks < 0,
            whole: magnitude / unit,
            fraction: magnitude % unit * (SIXTEEN_PLACES / unit),
        }
    }
}

// The digits of a fraction, up to the last that is not 0.
fn write_digits<W: fmt::Write>(fraction: u64, places: u32, f: &mut fmt::Formatter<W>) -> fmt::Result
    ensures prints { WritesOnOk W.Write.write_str_gives f.old result (fraction_digits places fraction) f.new }
{
    if places == 0 || fraction == 0 {
        return Ok(());
    }
    let digit = fraction / FIRST_PLACE;
    write!(f, "{digit}")?;
    write_digits(fraction % FIRST_PLACE * 10, places - 1, f)
}

#[derive(Clone, Copy)]
struct Digits(u64);

impl fmt::Display for Digits {
    ghost output = { λ x. Some (fraction_digits 16 x.0) };

    fn fmt<W: fmt::Write>(&self, f: &mut fmt::Formatter<W>) -> fmt::Result {
        write_digits(self.0, 16, f)
    }
}

fn sign_text(negative: bool) -> &'static str
    ensures value { result.now ≡ sign_text negative }
{
    if negative { "-" } else { "" }
}

// No trailing zeros, and no point where there is no fraction.
impl fmt::Display for Decimal {
    ghost output = { λ x. Some (decimal_text x) };

    fn fmt<W: fmt::Write>(&self, f: &mut fmt::Formatter<W>) -> fmt::Result {
        let sign = sign_text(self.negative);
        let whole = self.whole;
        if self.fraction == 0 {
            return write!(f, "{sign}{whole}");
        }
        let digits = Digits(self.fraction);
        write!(f, "{sign}{whole}.{digits}")
    }
}
