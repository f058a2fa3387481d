// How many marks make a unit.
ghost use Rattle.std.specs.Prelude.{◌≡◌, ◌^◌, ◌≤◌, MatchOption};
ghost use Rattle.interval.specs.Kind.{IsScale};

// A scale is a power of two from 1 to 65,536, kept as its exponent; a mark is one part of a unit in so many.
#[derive(Clone, Copy, Debug, PartialEq, Eq)]
pub struct Scale {
    bits: u32,
    ghost small: { bits ≤ 16 },
}

impl Scale {
    // The scale of so many marks to a unit; None where that is no power of two from 1 to 65,536.
    pub fn new(marks: u32) -> Option<Scale>
        ensures value { MatchOption result (IsScale marks → ⊥) (λ s. 2 ^ s.bits ≡ marks) }
    {
        if marks == 0 || marks > 65_536 {
            return None;
        }
        let scale = Scale {
            bits: marks.ilog2(),
        };
        (scale.marks() == marks).then_some(scale)
    }

    // One mark is one unit. This and the next are constants of their own: a parameter would bring `new` back, with its None.
    pub fn unit() -> Scale
        ensures value { result.bits ≡ 0 }
    {
        Scale { bits: 0 }
    }

    // 65,536 marks are one unit.
    pub fn fine() -> Scale
        ensures value { result.bits ≡ 16 }
    {
        Scale { bits: 16 }
    }

    // The marks of one unit.
    pub fn marks(self) -> u32
        ensures value { result ≡ 2 ^ self.bits }
    {
        1 << self.bits
    }

    // The exponent of the power of two.
    pub fn bits(self) -> u32
        ensures value { result ≡ self.bits }
    {
        self.bits
    }
}
