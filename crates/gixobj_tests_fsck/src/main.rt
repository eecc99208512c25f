//! Compares the messages about objects with recorded answers of `git fsck`, as `data/` has them.
//!
//! Prints for each table how many answers agree, and each row that differs.
#![tactic(auto)]

mod options;
mod trees;

use gixobj_tests_recorded::answer::Form::Escaped;
use gixobj_tests_recorded::tables::Replay;
use gixobj_tests_recorded::tables::Rows::Named;
use std::io::Write;
use std::process::ExitCode;
use trees::{offsets_answer, tree_answer};

fn main(rt: HostRuntime) -> ExitCode {
    let mut replay = Replay::new(&rt);
    replay.table("fsck trees", Named(Escaped), tree_answer);
    replay.table("fsck offsets", Named(Escaped), offsets_answer);
    match replay.end() {
        Ok(true) => ExitCode::SUCCESS,
        Ok(false) => ExitCode::FAILURE,
        Err(error) => {
            let _ = writeln!(rt.stderr(), "gixobj_tests_fsck: {error}");
            ExitCode::FAILURE
        }
    }
}
