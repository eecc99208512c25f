//! A runner without programs, for tests.

use bstr::BString;
use gixobj_signature::signature::{Call, Output, RunError, Runner};
use std::alloc::Global;

/// A runner that answers the calls of a list in order.
///
/// For another call, and after the last one, it starts no program. It then returns `RunError::Spawn`
/// with an empty message.
#[derive(Drop)]
pub struct Played {
    /// The allocator.
    pub alloc: Global,
    /// The expected calls that remain, each with its answer.
    pub steps: Vec<(Call, Result<Output, RunError>)>,
}

impl Runner for Played {
    ghost use Rattle.gixobj_tests_signatures.specs.ScriptedAnswers.{Plays};

    ghost runs = { λ old _ answer new. Plays old.steps.items answer new.steps.items };

    fn run(&mut self, call: &Call) -> Result<Output, RunError> {
        if self.steps.is_empty() {
            return Err(RunError::Spawn(BString::new(Vec::new(self.alloc))));
        }
        let (expected, answer) = self.steps.remove(0);
        if expected == *call {
            answer
        } else {
            Err(RunError::Spawn(BString::new(Vec::new(self.alloc))))
        }
    }
}
