//! The program `gixobj`, with the commands `show`, `tree` and `edit`. Each takes its input on standard
//! input, and ids by SHA-1, or by SHA-256 with the argument `sha256`.
//!
//! - `gixobj show [sha256]` prints the kind, the size and the id of an uncompressed loose object, as
//!   `<kind> <size> <id>`.
//! - `gixobj tree [sha256]` prints a line `<mode> <kind> <id> <name>` for each entry of a loose tree.
//! - `gixobj edit [sha256]` runs a script of edits on an empty tree, and reports the outcome of each.
#![tactic(auto)]

use gixobj_cli_edit::engine::engine;
use gixobj_cli_show::arguments::process_arguments;
use gixobj_cli_show::engine::report_to;
use gixobj_streams::streams::ToWrite;
use std::process::ExitCode;

fn main(rt: HostRuntime) -> ExitCode {
    let mut errors = rt.stderr();
    ExitCode::from(match process_arguments(&rt) {
        Ok(arguments) => engine(
            rt.alloc(),
            arguments.as_slice(),
            &mut rt.reader(),
            &mut rt.stdout(),
            &mut errors,
        ),
        Err(error) => report_to(error, &mut ToWrite(&mut errors)),
    })
}
