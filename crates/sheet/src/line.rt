// The record of a line.
ghost use Rattle.std.specs.Prelude.{◌≡◌, ◌≤◌, length};
ghost use Rattle.interval.specs.Interval.{limit};
ghost use Rattle.table.specs.Slice.{packed};
ghost use Rattle.taylor.specs.Record.{worked_of, Held};
ghost use Rattle.sheet.specs.Records.{zero_line, line_of, recorded_line};
ghost use Rattle.sheet.specs.Shape.{LineShape};
ghost use Rattle.sheet.specs.State.{line};

use taylor::{ModelRecord, WorkedRecord};

// The office that posted it, `length` bytes of text with zeros after them, and what the text gave.
// A sheet has fixed memory, so the text is an array with a length and no `Vec`. `LineShape` is no invariant of it: the zero record
// has no text, and with a Model of LineRecord a part of the array of lines gets a generated proof only where the whole array is lent
// as a slice first, as was tried.
#[derive(Clone, Copy)]
pub struct LineRecord {
    pub office: u64,
    pub text: [u8; 255],
    pub length: usize,
    pub worked: WorkedRecord,
}

// The posted bytes, and zeros after them.
fn recorded(posted: &[u8]) -> [u8; 255]
    requires { length posted.now ≤ 255 }
    ensures value { result ≡ packed 255 0 posted.now }
{
    let mut bytes = [0u8; 255];
    let n = posted.len();
    bytes[0..n].copy_from_slice(posted);
    bytes
}

impl LineRecord {
    // What stands where no line does.
    pub fn zero() -> LineRecord
        ensures value { result ≡ zero_line }
    {
        LineRecord {
            office: 0,
            text: [0; 255],
            length: 0,
            worked: WorkedRecord {
                model: ModelRecord::zero(),
                pairs: 0,
                clean: false,
            },
        }
    }

    // What an office's text gave.
    pub fn new(office: u64, posted: &[u8], worked: &WorkedRecord) -> LineRecord
        requires { length posted.now ≤ 255 }
        ensures value { result ≡ recorded_line office posted.now worked.now }
        ensures holds { line_of result ≡ line office posted.now (worked_of worked.now) }
        ensures formed { 1 ≤ length posted.now → Held limit worked.now.model → LineShape result }
    {
        LineRecord {
            office,
            text: recorded(posted),
            length: posted.len(),
            worked: *worked,
        }
    }

    // The text, as it was posted.
    pub fn posted(&self) -> &[u8]
        requires { LineShape self.now }
        ensures value { result.now ≡ (line_of self.now).text }
    {
        &self.text[0..self.length]
    }
}
