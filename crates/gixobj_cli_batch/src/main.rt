//! The program `gixobj_cli_batch` reads objects as `git cat-file --batch` prints them, on standard input. Its argument
//! is one of
//!
//! - `log ID`: a line `<id> <author> <<email>> <title>` for a commit and each ancestor by first parents;
//! - `ls ID`: a line `<mode> <kind> <id>` for each file of a commit or a tree, with a tab and its path;
//! - `diff ID ID`: a line for each change between two, as `git diff-tree -r` prints it;
//! - `merge-base ID ID`: a line `<id>` for each merge base of two commits, as `git merge-base --all` prints it;
//! - `rev-list [--topo-order] ID [^ID]`: a line `<id>` for each commit that the first id reaches and the second
//!   doesn't, as `git rev-list --date-order` and `git rev-list --topo-order` print them;
//! - `check`, `check --strict`: a line for each fault of an object, and one for each message that `git fsck` has about
//!   it, and one with the numbers of objects.
//!
//! Paths are printed unchanged: none is quoted.
#![tactic(auto)]

mod arguments;
mod bases;
mod check;
mod checked;
mod differences;
mod engine;
mod fault;
mod files;
mod findings;
mod history;
mod input;
mod lines;
mod output;
mod report;
mod store;
mod walks;

use arguments::process_arguments;
use engine::{engine, report};
use std::process::ExitCode;

fn main(rt: HostRuntime) -> ExitCode {
    let mut errors = rt.stderr();
    ExitCode::from(match process_arguments(&rt) {
        Ok(arguments) => engine(
            rt.alloc(),
            arguments.as_slice(),
            &mut rt.reader(),
            &mut rt.stdout(),
            &mut errors,
        ),
        Err(fault) => report(&fault, &mut errors),
    })
}
