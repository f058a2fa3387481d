// Looks at what stands in a sheet.
// Each look at a line is one line: a common one would take the field as a closure, and say its contract by the closure's.
ghost use Rattle.std.specs.Prelude.{◌≡◌, IfSome};
ghost use Rattle.std.specs.Option.{option_map};
ghost use Rattle.std.specs.List.{slice_get};
ghost use Rattle.sheet.specs.Records.{line_of};
ghost use Rattle.sheet.specs.Shape.{LineShape};

use crate::line::LineRecord;
use crate::record::SheetRecord;
use interval::Variable;

impl SheetRecord {
    // A variable of the box.
    pub fn variable_at(&self, number: u64) -> Option<Variable>
        ensures value { result ≡ slice_get self.now.box number }
    {
        self.variables[0..self.inputs].get(number as usize).copied()
    }

    // The record of a line that stands.
    pub fn line_at(&self, number: u64) -> Option<&LineRecord>
        ensures value { option_map (λ x. line_of x.now) result ≡ slice_get self.now.lines number }
        ensures formed { IfSome result (λ l. LineShape l.now) }
    {
        self.lines[0..self.standing].get(number as usize)
    }

    // The office that posted a line.
    pub fn office_of(&self, number: u64) -> Option<u64>
        ensures value { result ≡ option_map (λ l. l.office) (slice_get self.now.lines number) }
    {
        Some(self.line_at(number)?.office)
    }

    // A line's text, as it was posted.
    pub fn text_of(&self, number: u64) -> Option<&[u8]>
        ensures value { option_map (λ x. x.now) result ≡ option_map (λ l. l.text) (slice_get self.now.lines number) }
    {
        Some(self.line_at(number)?.posted())
    }

    // The pairs that a line's text makes.
    pub fn pairs_of(&self, number: u64) -> Option<u64>
        ensures value { result ≡ option_map (λ l. l.worked.pairs) (slice_get self.now.lines number) }
    {
        Some(self.line_at(number)?.worked.pairs)
    }

    // Whether none of its pairs was cut, and every line that it names is clean.
    pub fn is_clean(&self, number: u64) -> Option<bool>
        ensures value { result ≡ option_map (λ l. l.worked.clean) (slice_get self.now.lines number) }
    {
        Some(self.line_at(number)?.worked.clean)
    }
}
