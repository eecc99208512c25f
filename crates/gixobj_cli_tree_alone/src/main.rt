//! The commands `tree [sha256]` and `show [sha256]` of the program `gixobj`. They depend on no editor, so
//! this program builds faster.
#![tactic(auto)]

use gixobj_cli_show::arguments::process_arguments;
use gixobj_cli_show::engine::report_to;
use gixobj_cli_tree::engine::engine;
use gixobj_streams::streams::ToWrite;
use std::process::ExitCode;

fn main(rt: HostRuntime) -> ExitCode {
    let mut errors = rt.stderr();
    ExitCode::from(match process_arguments(&rt) {
        Ok(arguments) => engine(
            rt.alloc(),
            arguments.as_slice(),
            &mut rt.reader(),
            &mut rt.stdout(),
            &mut errors,
        ),
        Err(error) => report_to(error, &mut ToWrite(&mut errors)),
    })
}
