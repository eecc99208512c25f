//! Calls of external programs, their output, and the trait [`Runner`] that makes the calls.
ghost use Rattle.gixobj_signature_reports.specs.Calls.{answer_view, call_view};

use bstr::BString;
use gixobj_actor::date::Time;

/// An argument of a [`Call`].
#[derive(Clone, Debug, Drop, PartialEq, Eq)]
pub enum Word {
    /// An argument with these bytes.
    Text(BString),
    /// The path of the file whose content has this index in [`Call::files`].
    File(usize),
    /// `-Overify-time=` followed by this time. The runner formats it for ssh-keygen (ssh-keygen(1), `-O`).
    VerifyTime(Time),
}

/// A complete call of an external program, which a [`Runner`] makes.
#[derive(Clone, Debug, Drop, PartialEq, Eq)]
pub struct Call {
    /// The program, as a path or a name.
    pub program: BString,
    /// The arguments of the program, in order.
    pub words: Vec<Word>,
    /// Environment variables, as names and values, that are set for this program alone.
    pub environment: Vec<(BString, BString)>,
    /// The contents of the files that the arguments name. The files exist during this call alone.
    pub files: Vec<BString>,
    /// The bytes of the standard input, if the program has one.
    pub input: Option<BString>,
    /// The index in [`Call::files`] of a file next to which the program may write another one. That file has
    /// the same path with `.sig` appended, and [`Output::result`] has its content.
    pub result: Option<usize>,
}

/// The output of a program that ran to its end; [`Runner::run`] returns it.
#[derive(Clone, Debug, Drop, PartialEq, Eq)]
pub struct Output {
    /// Whether the program exited with status 0.
    pub success: bool,
    /// The bytes that the program wrote to its standard output.
    pub stdout: Vec<u8>,
    /// The bytes that the program wrote to its standard error.
    pub stderr: Vec<u8>,
    /// The content of the file that [`Call::result`] requests, if the program wrote one.
    pub result: Option<Vec<u8>>,
}

/// Why a program didn't run to its end. Each payload is a message of the runner.
#[derive(Debug, Drop, thiserror::Error)]
pub enum RunError {
    /// A file couldn't be created.
    #[error("no temporary file: {0}")]
    TemporaryFile(BString),
    /// The program couldn't be started.
    #[error("not started: {0}")]
    Spawn(BString),
    /// A write of the program's input or a read of its output failed.
    #[error("no communication: {0}")]
    Communicate(BString),
    /// The time of [`Word::VerifyTime`] couldn't be formatted.
    #[error("no text of the time: {0}")]
    CommitTime(BString),
    /// An allocation failed.
    #[error("out of memory")]
    OutOfMemory,
}

/// Makes calls of external programs.
///
/// No function of this crate starts a program: the caller supplies a runner. The relation `runs` says which
/// answers a call may have, and in which state each of them leaves the runner.
pub trait Runner {
    ghost use Rattle.gixobj_signature_reports.specs.Calls.{Answer, CallView};

    /// From this state, this call may have this answer, which leaves the runner in that state.
    ghost runs: { Self → CallView → Answer → Self → Type 0 };

    /// Runs a program to its end and returns its output.
    ///
    /// It creates the files, sets the environment, writes the standard input, and then removes the files.
    /// What the call allocates depends on the runner.
    ///
    /// # Errors
    ///
    /// The case of [`RunError`] that kept the program from its end.
    ///
    /// # Examples
    ///
    /// ```rust
    /// fn run(&mut self, call: &Call) -> Result<Output, RunError> {
    ///     match self.answer.clone() {
    ///         Ok(answer) => Ok(answer),
    ///         Err(_) => Err(RunError::OutOfMemory),
    ///     }
    /// }
    /// ```
    fn run(&mut self, call: &Call) -> Result<Output, RunError>
        ensures { runs self.old (call_view call.now) (answer_view result) self.new };
}
