//! Expected calls and scripted answers, in the notation of rows of tests.

use crate::scripted::Played;
use bstr::BString;
use gixobj_actor::date::Time;
use gixobj_signature::signature::{Call, Output, RunError, Word};
use std::alloc::Global;

/// The program of most calls.
pub(crate) const PROGRAM: &[u8] = b"signer";

/// The message of each failure of a runner.
pub(crate) const WHY: &[u8] = b"why";

/// The scripted answer of a runner to a call.
#[derive(Clone, Copy)]
pub(crate) enum ScriptedAnswer {
    /// The program ran: its success, its standard output and error, and the contents of its result file.
    Ran(bool, &'static [u8], &'static [u8], Option<&'static [u8]>),
    /// The runner couldn't make a file.
    NoFile,
    /// The program wasn't started.
    NotStarted,
    /// The communication with the program failed.
    NoCommunication,
    /// The time couldn't be formatted.
    NoTime,
    /// Memory ran out.
    NoMemory,
}

/// An expected call, and its scripted answer.
#[derive(Clone, Copy)]
pub(crate) struct Step<'a> {
    /// The program.
    pub(crate) program: &'static [u8],
    /// The arguments, separated by spaces: `@0` and `@1` are files, `@time` is the time.
    pub(crate) arguments: &'static str,
    /// Whether its environment requests output in English.
    pub(crate) in_english: bool,
    /// The contents of its files.
    pub(crate) files: &'static [&'static [u8]],
    /// The input of the program.
    pub(crate) input: Option<&'a [u8]>,
    /// The index of the file next to which the program leaves its result file.
    pub(crate) result: Option<usize>,
    /// The scripted answer.
    pub(crate) answer: ScriptedAnswer,
}

/// Returns the time of `@time`.
pub(crate) fn time() -> Time {
    Time::new(1, 60).unwrap_or_default()
}

/// Returns the name of an error if its payload is as wanted, and `another` otherwise.
pub(crate) fn name_with(name: &'static str, why: &BString, wanted: &[u8]) -> &'static str {
    if why.as_bytes() == wanted {
        name
    } else {
        "another"
    }
}

/// The environment of a program.
const HOME: &[(&[u8], &[u8])] = &[(b"HOME", b"keys")];

/// The environment of a program whose output is requested in English.
const IN_ENGLISH: &[(&[u8], &[u8])] = &[(b"HOME", b"keys"), (b"LANG", b"C"), (b"LC_ALL", b"C")];

/// A maker of values for a test. If an allocation fails it continues with less, and records the failure.
#[derive(Drop)]
pub(crate) struct Maker {
    /// The allocator.
    pub(crate) alloc: Global,
    /// Whether an allocation failed.
    pub(crate) is_failed: bool,
}

impl Maker {
    /// Returns a maker without a failure.
    pub(crate) fn new(alloc: Global) -> Maker {
        Maker {
            alloc,
            is_failed: false,
        }
    }

    /// Returns an owned copy of bytes.
    pub(crate) fn bytes(&mut self, bytes: &[u8]) -> Vec<u8> {
        match Vec::from_slice(self.alloc, bytes) {
            Ok(copy) => copy,
            Err(_) => {
                self.is_failed = true;
                Vec::new(self.alloc)
            }
        }
    }

    /// Returns an owned copy of bytes, as a `BString`.
    pub(crate) fn bstring(&mut self, bytes: &[u8]) -> BString {
        BString::new(self.bytes(bytes))
    }

    /// Returns an owned copy of bytes, as a `BString`, if there are any.
    pub(crate) fn bstring_if_some(&mut self, bytes: Option<&[u8]>) -> Option<BString> {
        match bytes {
            Some(bytes) => Some(self.bstring(bytes)),
            None => None,
        }
    }

    /// Appends a value to a list.
    pub(crate) fn append<T: Drop>(&mut self, list: &mut Vec<T>, value: T) {
        if list.push(value).is_err() {
            self.is_failed = true;
        }
    }

    /// Returns owned copies of byte strings.
    pub(crate) fn bstrings(&mut self, strings: &[&[u8]]) -> Vec<BString> {
        let mut copies = Vec::new(self.alloc);
        for one in strings {
            let copy = self.bstring(one);
            self.append(&mut copies, copy);
        }
        copies
    }

    /// Returns the environment of a program.
    pub(crate) fn environment(&mut self, in_english: bool) -> Vec<(BString, BString)> {
        let mut environment = Vec::new(self.alloc);
        for &(name, value) in if in_english { IN_ENGLISH } else { HOME } {
            let pair = (self.bstring(name), self.bstring(value));
            self.append(&mut environment, pair);
        }
        environment
    }

    /// Parses the arguments of a row, separated by spaces.
    pub(crate) fn arguments(&mut self, notation: &str) -> Vec<Word> {
        let mut arguments = Vec::new(self.alloc);
        for argument in notation.split(' ') {
            let argument = match argument {
                "@0" => Word::File(0),
                "@1" => Word::File(1),
                "@time" => Word::VerifyTime(time()),
                _ => Word::Text(self.bstring(argument.as_bytes())),
            };
            self.append(&mut arguments, argument);
        }
        arguments
    }

    /// Appends an expected call to those of a runner.
    pub(crate) fn expect(&mut self, runner: &mut Played, step: &Step<'_>) {
        let step = (self.call(step), self.answer(step.answer));
        self.append(&mut runner.steps, step);
    }

    /// Returns the runner that expects these calls.
    pub(crate) fn runner(&mut self, steps: &[Step<'_>]) -> Played {
        let mut runner = Played {
            alloc: self.alloc,
            steps: Vec::new(self.alloc),
        };
        for step in steps {
            self.expect(&mut runner, step);
        }
        runner
    }

    /// Returns the call of a step.
    pub(crate) fn call(&mut self, step: &Step<'_>) -> Call {
        Call {
            program: self.bstring(step.program),
            words: self.arguments(step.arguments),
            environment: self.environment(step.in_english),
            files: self.bstrings(step.files),
            input: self.bstring_if_some(step.input),
            result: step.result,
        }
    }

    /// Returns the answer of a runner.
    pub(crate) fn answer(&mut self, answer: ScriptedAnswer) -> Result<Output, RunError> {
        match answer {
            ScriptedAnswer::Ran(success, stdout, stderr, result_file) => Ok(Output {
                success,
                stdout: self.bytes(stdout),
                stderr: self.bytes(stderr),
                result: match result_file {
                    Some(bytes) => Some(self.bytes(bytes)),
                    None => None,
                },
            }),
            ScriptedAnswer::NoFile => Err(RunError::TemporaryFile(self.bstring(WHY))),
            ScriptedAnswer::NotStarted => Err(RunError::Spawn(self.bstring(WHY))),
            ScriptedAnswer::NoCommunication => Err(RunError::Communicate(self.bstring(WHY))),
            ScriptedAnswer::NoTime => Err(RunError::CommitTime(self.bstring(WHY))),
            ScriptedAnswer::NoMemory => Err(RunError::OutOfMemory),
        }
    }
}
