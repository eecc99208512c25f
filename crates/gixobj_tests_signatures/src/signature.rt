//! Positions of signatures: none in many lines. `gixobj_tests_replay_messages` compares the positions in short inputs.

use gixobj_parse::signature::find;
use std::alloc::Global;

/// Lines that begin like a marker, and how often they are repeated without making one.
const LINES: &[(&str, usize)] = &[("-\n", 1_000_000), ("-----BEGIN \n", 100_000)];

/// Returns whether no signature is found in a repeated line.
fn has_no_marker(alloc: Global, line: &str, count: usize) -> bool {
    match line.repeat(alloc, count) {
        Ok(content) => find(content.as_bytes()).is_none(),
        Err(_) => false,
    }
}

#[test]
fn finds_no_marker_in_many_lines(rt: HostRuntime) {
    for &(line, count) in LINES {
        assert!(rt; has_no_marker(rt.alloc(), line, count), "{line}");
    }
}
