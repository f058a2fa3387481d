// Which lines use a variable.
ghost use Rattle.std.specs.Prelude.{◌≡◌, false};
ghost use Rattle.formula.specs.Meaning.{any_uses, uses};
ghost use Rattle.formula.specs.Token.{tokens};
ghost use Rattle.table.specs.Slice.{packed};
ghost use Rattle.sheet.specs.Records.{line_of};
ghost use Rattle.sheet.specs.Shape.{LineShape};
ghost use Rattle.sheet.specs.State.{texts};

use crate::line::LineRecord;
use crate::record::SheetRecord;
use formula::uses;

// `below` tells it of each line below.
fn line_uses(here: &LineRecord, variable: usize, below: &[bool]) -> bool
    requires { LineShape here.now }
    ensures value { result ≡ any_uses variable below.now (tokens (line_of here.now).text) }
{
    uses(here.posted(), variable, below)
}

impl SheetRecord {
    // A mark for each line that stands, and none past them.
    pub fn marks(&self, variable: u64) -> [bool; 12]
        ensures value { result ≡ packed 12 false (uses variable (texts self.now.lines)) }
    {
        let mut marked = [false; 12];
        // The loop counts its lines, since each is marked from the marks of the lines below it.
        for (n, here) in self.lines[0..self.standing].iter().enumerate() {
            marked[n] = line_uses(here, variable as usize, &marked[0..n]);
        }
        marked
    }
}
