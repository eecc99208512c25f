//! A runner of a caller's own.

use gix_object::signature::{Call, Output, RunError, Runner};

/// A runner that starts no program and returns the same output for each call.
#[derive(Drop)]
pub struct Same {
    pub answer: Output,
}

impl Runner for Same {
    ghost use Rattle.std.specs.Prelude.{⊤};

    ghost runs = { λ _ _ _ _. ⊤ };

    fn run(&mut self, call: &Call) -> Result<Output, RunError> {
        match self.answer.clone() {
            Ok(answer) => Ok(answer),
            Err(_) => Err(RunError::OutOfMemory),
        }
    }
}
