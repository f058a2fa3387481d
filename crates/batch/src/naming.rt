// Inputs by their names.
ghost use Rattle.std.specs.Prelude.{◌≡◌, ◌<◌, [], ◌∷◌, ◌++◌, IfSome, is_ok, if◌then◌else◌, vec_len};
ghost use Rattle.batch.specs.Inputs.{names_of, named_variables, place_of};

use crate::inputs::{Input, Inputs};
use interval::Variable;
use std::alloc::{AllocError, Global};

impl Inputs {
    pub fn new(heap: Global) -> Inputs
        ensures value { named_variables result ≡ [] }
    {
        Inputs {
            all: Vec::new(heap),
        }
    }

    // An input comes last.
    pub fn add(&mut self, heap: Global, name: &str, variable: Variable) -> Result<(), AllocError>
        requires { vec_len self.old.all < 6 }
        ensures after { named_variables self.new ≡ (if is_ok result then named_variables self.old ++ ((name.now, variable) ∷ []) else named_variables self.old) }
    {
        let name = String::from_str(heap, name)?;
        self.all.push(Input { name, variable })?;
        Ok(())
    }

    // The place of the input of this name.
    pub fn place(&self, name: &str) -> Option<usize>
        ensures value { result ≡ place_of (names_of self.now) name.now }
        ensures bound { IfSome result (λ i. i < 6) }
    {
        self.all
            .iter()
            .position(|input| input.name.as_str() == name)
    }
}
