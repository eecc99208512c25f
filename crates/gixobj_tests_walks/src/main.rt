//! Compares walks over the commits of small graphs with recorded results of `git rev-list` and `git merge-base`, as
//! `data/` has them.
//!
//! Prints how many results agree, and each row that differs.
#![tactic(auto)]

#[cfg(test)]
mod calls;
mod graphs;
#[cfg(test)]
mod known;
mod walks;

use gixobj_tests_recorded::answer::Form::Escaped;
use gixobj_tests_recorded::tables::Replay;
use gixobj_tests_recorded::tables::Rows::Long;
use std::io::Write;
use std::process::ExitCode;
use walks::walk_answer;

fn main(rt: HostRuntime) -> ExitCode {
    let mut replay = Replay::new(&rt);
    replay.table("walks", Long(Escaped), walk_answer);
    match replay.end() {
        Ok(true) => ExitCode::SUCCESS,
        Ok(false) => ExitCode::FAILURE,
        Err(error) => {
            let _ = writeln!(rt.stderr(), "gixobj_tests_walks: {error}");
            ExitCode::FAILURE
        }
    }
}
