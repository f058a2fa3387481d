// A variable of the box.
ghost use Rattle.std.specs.Prelude.{◌≡◌, IfOk};
ghost use Rattle.interval.specs.Interval.{Fits};
ghost use Rattle.interval.specs.Scale.{per_unit};
ghost use Rattle.interval.specs.Variable.{Sound, centred, variable_of};

use crate::marks::Interval;
use crate::reason::Reason;
use crate::scale::Scale;

// An input: its two ends as given, beside the centre and the half width in marks.
#[derive(Clone, Copy, Debug)]
pub struct Variable {
    pub lower: f64,
    pub upper: f64,
    pub centre: i64,
    pub half: i64,
}

fn centred(lower: f64, upper: f64, ends: Interval) -> Variable
    requires { Fits ends }
    ensures value { result ≡ centred lower upper ends }
{
    let centre = (ends.lower + ends.upper) >> 1;
    Variable {
        lower,
        upper,
        centre,
        half: ends.upper - centre,
    }
}

impl Variable {
    // The ends are kept bit for bit. Both are tested as numbers, so that -0.0 is 0.0.
    pub fn new(lower: f64, upper: f64, scale: Scale) -> Result<Variable, Reason>
        ensures value { result ≡ variable_of (per_unit scale) lower upper }
        ensures laws { IfOk result (Sound (per_unit scale)) }
    {
        if !lower.is_finite() || !upper.is_finite() {
            return Err(Reason::EndNotFinite);
        }
        if lower > upper {
            return Err(Reason::EndsCrossed);
        }
        let a = Interval::hull(lower, scale).ok_or(Reason::EndDoesNotFit)?;
        let b = Interval::hull(upper, scale).ok_or(Reason::EndDoesNotFit)?;
        let ends = Interval {
            lower: a.lower,
            upper: b.upper,
        };
        Ok(centred(lower, upper, ends))
    }
}
