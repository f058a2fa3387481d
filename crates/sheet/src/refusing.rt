// Refusals of a sheet, and what several turns test.
ghost use Rattle.std.specs.Prelude.{◌≡◌};
ghost use Rattle.sheet.specs.State.{refusal, known_office};

use interval::{Reason, Refusal};

// At a line, and at no place of a text.
pub fn refuse(reason: Reason, number: u64) -> Refusal
    ensures value { result ≡ refusal reason number 0 }
{
    Refusal {
        reason,
        line: number,
        place: 0,
    }
}

// The offices are 1 to 255.
pub fn is_known_office(office: u64) -> bool
    ensures value { result ≡ known_office office }
{
    (1..=255).contains(&office)
}
