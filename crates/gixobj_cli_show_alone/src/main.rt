//! The command `show [sha256]` of the program `gixobj` alone. It depends on only some of the program's crates,
//! so it builds fast.
#![tactic(auto)]

use gixobj_cli_show::arguments::process_arguments;
use gixobj_cli_show::engine::{engine, report_to};
use gixobj_streams::streams::ToWrite;
use std::process::ExitCode;

fn main(rt: HostRuntime) -> ExitCode {
    let mut errors = rt.stderr();
    ExitCode::from(match process_arguments(&rt) {
        Ok(arguments) => engine(
            rt.alloc(),
            arguments.as_slice(),
            &mut rt.reader(),
            &mut rt.stdout(),
            &mut errors,
        ),
        Err(error) => report_to(error, &mut ToWrite(&mut errors)),
    })
}
