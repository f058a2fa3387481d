// What is printed: the box, polynomials and their ranges, in units and in marks.
use batch::{Decimal, Desk, Input, MethodChoice};
use interval::{Interval, Kind, Scale};
use polynomial::Term;
use std::fmt;

// The kind, the method and the order, then each input.
#[derive(Clone, Copy)]
pub struct BoxReport<'a> {
    pub desk: &'a Desk,
}

impl fmt::Display for BoxReport<'_> {
    fn fmt<W: fmt::Write>(&self, f: &mut fmt::Formatter<W>) -> fmt::Result {
        let Desk {
            kind,
            method,
            order,
            inputs,
            ..
        } = self.desk;
        let scale = kind.scale();
        let marks = scale.marks();
        writeln!(
            f,
            "kind {kind}, {marks} marks a unit; method {method}; order {order}"
        )?;
        for input in inputs.all.iter() {
            let line = InputLine { input, scale };
            writeln!(f, "{line}")?;
        }
        Ok(())
    }
}

#[derive(Clone, Copy)]
struct InputLine<'a> {
    input: &'a Input,
    scale: Scale,
}

impl fmt::Display for InputLine<'_> {
    fn fmt<W: fmt::Write>(&self, f: &mut fmt::Formatter<W>) -> fmt::Result {
        let name = self.input.name.as_str();
        let variable = self.input.variable;
        let low = variable.lower;
        let high = variable.upper;
        let c = variable.centre;
        let h = variable.half;
        let centre = Decimal::of_marks(c, self.scale);
        let half = Decimal::of_marks(h, self.scale);
        write!(
            f,
            "input {name} from {low} to {high}: centre {centre}, half width {half} ({c} and {h} marks)"
        )
    }
}

// The polynomial that was closed last, and its range by the method that was chosen, then by the others.
#[derive(Clone, Copy)]
pub struct PolynomialReport<'a> {
    pub number: usize,
    pub desk: &'a Desk,
}

impl fmt::Display for PolynomialReport<'_> {
    fn fmt<W: fmt::Write>(&self, f: &mut fmt::Formatter<W>) -> fmt::Result {
        let desk = self.desk;
        let number = self.number;
        let terms = Terms { desk };
        let chosen = RangeLine {
            desk,
            method: desk.method,
        };
        writeln!(f, "\npolynomial {number} in unit coordinates")?;
        write!(f, "{terms}")?;
        writeln!(f, "{chosen}")?;
        for method in [
            MethodChoice::Plain,
            MethodChoice::Quadratic,
            MethodChoice::Both,
        ] {
            if method != desk.method {
                let other = RangeLine { desk, method };
                writeln!(f, "{other}")?;
            }
        }
        Ok(())
    }
}

// A line for each term, or one of 0.
#[derive(Clone, Copy)]
struct Terms<'a> {
    desk: &'a Desk,
}

impl fmt::Display for Terms<'_> {
    fn fmt<W: fmt::Write>(&self, f: &mut fmt::Formatter<W>) -> fmt::Result {
        let desk = self.desk;
        let terms = desk.closed.as_slice();
        if terms.is_empty() {
            return writeln!(f, "  0");
        }
        for term in terms {
            let line = TermLine { term, desk };
            writeln!(f, "{line}")?;
        }
        Ok(())
    }
}

// A coefficient, then the powers of the inputs.
#[derive(Clone, Copy)]
struct TermLine<'a> {
    term: &'a Term,
    desk: &'a Desk,
}

impl fmt::Display for TermLine<'_> {
    fn fmt<W: fmt::Write>(&self, f: &mut fmt::Formatter<W>) -> fmt::Result {
        let coefficient = Coefficient {
            interval: self.term.coefficient,
            scale: self.desk.kind.scale(),
        };
        write!(f, "  {coefficient}")?;
        for (input, exponent) in self.desk.inputs.all.iter().zip(self.term.monomial.iter()) {
            let factor = Factor {
                name: input.name.as_str(),
                exponent: *exponent,
            };
            write!(f, "{factor}")?;
        }
        Ok(())
    }
}

// One number where both ends are equal, else both.
#[derive(Clone, Copy)]
struct Coefficient {
    interval: Interval,
    scale: Scale,
}

impl fmt::Display for Coefficient {
    fn fmt<W: fmt::Write>(&self, f: &mut fmt::Formatter<W>) -> fmt::Result {
        let Interval { lower, upper } = self.interval;
        let low = Decimal::of_marks(lower, self.scale);
        let high = Decimal::of_marks(upper, self.scale);
        if lower == upper {
            write!(f, "{low}")
        } else {
            write!(f, "[{low}, {high}]")
        }
    }
}

// Nothing where the exponent is 0.
#[derive(Clone, Copy)]
struct Factor<'a> {
    name: &'a str,
    exponent: u8,
}

impl fmt::Display for Factor<'_> {
    fn fmt<W: fmt::Write>(&self, f: &mut fmt::Formatter<W>) -> fmt::Result {
        let name = self.name;
        match self.exponent {
            0 => Ok(()),
            1 => write!(f, " {name}"),
            exponent => write!(f, " {name}^{exponent}"),
        }
    }
}

#[derive(Clone, Copy)]
struct RangeLine<'a> {
    desk: &'a Desk,
    method: MethodChoice,
}

impl fmt::Display for RangeLine<'_> {
    fn fmt<W: fmt::Write>(&self, f: &mut fmt::Formatter<W>) -> fmt::Result {
        let method = self.method;
        let scale = self.desk.kind.scale();
        let Interval { lower, upper } = self.desk.closed.range(&method);
        let low = Decimal::of_marks(lower, scale);
        let high = Decimal::of_marks(upper, scale);
        write!(
            f,
            "  range by {method}: [{low}, {high}] units, [{lower}, {upper}] marks"
        )
    }
}
