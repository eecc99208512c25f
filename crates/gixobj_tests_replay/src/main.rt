//! Compares the public calls with recorded answers of `git`, of the Rust crate and of stated rules, as
//! `data/` has them: of fields, trees, commits and loose objects. Prints for each table how many answers
//! agree, and each row that differs.
#![tactic(auto)]

mod actors;
mod commits;
mod findings;
mod fsck;
mod objects;
mod trees;
mod values;

use Form::{Escaped, Hex, Quoted};
use Rows::{Long, Named, Pairs, Plain};
use actors::{actor_answer, actor_line_answer};
use commits::{
    beginning_answer, call_answer, commit_answer, search_answer, shape_answer, size_answer,
    token_answer,
};
use findings::{fsck_finding_answer, parsed_answer};
use fsck::{fsck_message_answer, fsck_verdict_answer};
use gixobj_tests_recorded::answer::Form;
use gixobj_tests_recorded::tables::{Replay, Rows};
use objects::{loose_answer, object_answer};
use std::io::Write;
use std::process::ExitCode;
use std::rt::Files;
use trees::{
    git_tree_answer, listed_tree_answer, tree_answer, tree_token_answer, well_formed_answer,
};
use values::{
    entry_mode_answer, header_answer, header_bytes_answer, header_field_answer, id_answer,
    kind_answer, mode_answer, number_answer, object_id_answer, order_answer, time_answer,
};

fn main(rt: HostRuntime) -> ExitCode {
    let mut replay = Replay::new(&rt);
    replay_fields_and_commits(&mut replay);
    replay_objects_and_fields(&mut replay);
    replay_shapes(&mut replay);
    replay_messages(&mut replay);
    match replay.end() {
        Ok(true) => ExitCode::SUCCESS,
        Ok(false) => ExitCode::FAILURE,
        Err(error) => {
            let _ = writeln!(rt.stderr(), "gixobj_tests_replay: {error}");
            ExitCode::FAILURE
        }
    }
}

/// Compares the tables of modes, names, headers, actors and commits.
fn replay_fields_and_commits<R: Files + Print + AllocGlobal>(replay: &mut Replay<'_, R>) {
    replay.table("modes", Plain, mode_answer);
    replay.table("mode numbers", Plain, number_answer);
    replay.table("name order", Pairs, order_answer);
    replay.table("loose headers", Plain, header_answer);
    replay.table("actors", Plain, actor_answer);
    replay.table("commits", Plain, commit_answer);
    replay.table("commit sizes", Plain, size_answer);
    replay.table("commit tokens", Plain, token_answer);
}

/// Compares the tables of trees, loose objects, kinds, ids, times and header fields.
fn replay_objects_and_fields<R: Files + Print + AllocGlobal>(replay: &mut Replay<'_, R>) {
    replay.table("trees", Plain, tree_answer);
    replay.table("tree tokens", Plain, tree_token_answer);
    replay.table("objects", Plain, object_answer);
    replay.table("kinds", Named(Escaped), kind_answer);
    replay.table("entry modes", Named(Quoted), entry_mode_answer);
    replay.table("near names", Long(Hex), order_answer);
    replay.table("ids", Named(Escaped), id_answer);
    replay.table("object ids", Named(Escaped), object_id_answer);
    replay.table("header texts", Named(Quoted), header_bytes_answer);
    replay.table("times", Named(Quoted), time_answer);
    replay.table("actor lines", Named(Quoted), actor_line_answer);
    replay.table("header fields", Named(Quoted), header_field_answer);
}

/// Compares the tables of trees, commits and loose objects of `git`.
fn replay_shapes<R: Files + Print + AllocGlobal>(replay: &mut Replay<'_, R>) {
    replay.table("listed trees", Named(Hex), listed_tree_answer);
    replay.table("well-formed trees", Named(Hex), well_formed_answer);
    replay.table("git trees", Named(Hex), git_tree_answer);
    replay.table("odd trees", Named(Hex), git_tree_answer);
    replay.table("git commits", Named(Escaped), shape_answer);
    replay.table("odd commits", Named(Escaped), shape_answer);
    replay.table("commit headers", Named(Escaped), search_answer);
    replay.table("commit beginnings", Named(Escaped), beginning_answer);
    replay.table("commit calls", Named(Escaped), call_answer);
    replay.table("git objects", Named(Escaped), loose_answer);
}

/// Compares the tables of the messages, verdicts and findings of `git fsck`, and of git's parser.
fn replay_messages<R: Files + Print + AllocGlobal>(replay: &mut Replay<'_, R>) {
    replay.table("fsck messages", Named(Escaped), fsck_message_answer);
    replay.table("fsck verdicts", Named(Escaped), fsck_verdict_answer);
    replay.table("fsck findings", Named(Escaped), fsck_finding_answer);
    replay.table("parsed objects", Named(Escaped), parsed_answer);
}
