// The inputs of a box, each with its name.
ghost use Rattle.std.specs.Prelude.{◌≤◌, vec_len};

use interval::Variable;

#[derive(Drop)]
pub struct Input {
    pub name: String,
    pub variable: Variable,
}

// At most six, in the order in which they came.
#[derive(Drop)]
pub struct Inputs {
    pub all: Vec<Input>,
    ghost few: { vec_len all ≤ 6 },
}
