//! Compares the public calls with recorded answers of `git`, of the Rust crate and of stated rules, as
//! `data/` has them: of messages, tags, signatures and scripts of edits. Prints for each table how many answers
//! agree, and each row that differs.
#![tactic(auto)]

mod messages;
mod programs;
mod scripts;
mod signatures;
mod tags;

use Form::{Escaped, Hex, Quoted};
use Rows::{Long, Named, Plain};
use gixobj_tests_recorded::answer::Form;
use gixobj_tests_recorded::tables::{Replay, Rows};
use messages::{body_answer, message_answer, named_answer};
use programs::program_answer;
use scripts::{command_answer, script_answer, stored_script_answer};
use signatures::{
    gpg_report_answer, marker_answer, signed_data_answer, ssh_report_answer, trust_answer,
};
use std::io::Write;
use std::process::ExitCode;
use std::rt::Files;
use tags::{
    git_name_answer, git_tag_answer, name_answer, tag_answer, tag_parts_answer, tag_token_answer,
};

fn main(rt: HostRuntime) -> ExitCode {
    let mut replay = Replay::new(&rt);
    replay_messages_and_tags(&mut replay);
    replay_signatures_and_scripts(&mut replay);
    match replay.end() {
        Ok(true) => ExitCode::SUCCESS,
        Ok(false) => ExitCode::FAILURE,
        Err(error) => {
            let _ = writeln!(rt.stderr(), "gixobj_tests_replay_messages: {error}");
            ExitCode::FAILURE
        }
    }
}

/// Compares the tables of messages and tags.
fn replay_messages_and_tags<R: Files + Print + AllocGlobal>(replay: &mut Replay<'_, R>) {
    replay.table("messages", Plain, message_answer);
    replay.table("bodies", Plain, body_answer);
    replay.table("message texts", Named(Quoted), named_answer);
    replay.table("git trailers", Named(Quoted), named_answer);
    replay.table("tags", Plain, tag_answer);
    replay.table("tag tokens", Plain, tag_token_answer);
    replay.table("tag names", Plain, name_answer);
    replay.table("git tag names", Named(Escaped), git_name_answer);
    replay.table("git tags", Named(Hex), git_tag_answer);
    replay.table("tag texts", Named(Hex), git_tag_answer);
    replay.table("tag parts", Named(Hex), tag_parts_answer);
}

/// Compares the tables of signatures and scripts.
fn replay_signatures_and_scripts<R: Files + Print + AllocGlobal>(replay: &mut Replay<'_, R>) {
    replay.table("gpg reports", Plain, gpg_report_answer);
    replay.table("ssh reports", Plain, ssh_report_answer);
    replay.table("trust levels", Plain, trust_answer);
    replay.table("markers", Plain, marker_answer);
    replay.table("signed data", Plain, signed_data_answer);
    replay.table("programs", Long(Escaped), program_answer);
    replay.table("commands", Long(Escaped), command_answer);
    replay.table("scripts", Long(Escaped), script_answer);
    replay.table("random scripts", Long(Escaped), script_answer);
    replay.table("stored scripts", Long(Escaped), stored_script_answer);
}
