// The place of an input beside a power.
ghost use Rattle.std.specs.Prelude.{◌<◌};

// The place is one of at most six; the power is that of the input's unit coordinate.
#[derive(Clone, Copy)]
pub struct Factor {
    pub place: usize,
    pub power: u8,
    ghost within: { place < 6 },
}
