//! Tokens of a commit: their order and their copies.

use crate::helpers::{are_copied, are_in_order, holds};
use bstr::BStr;
use gixobj_base::decode::Error;
use gixobj_base::hash::Kind;
use gixobj_codec::CommitRefIter;
use gixobj_codec::commit::ref_iter::Token;
use std::alloc::Global;

/// A commit that has a token of each kind but a parent.
const LINES: &[u8] = b"tree 4b825dc642cb6eb9a060e54bf8d69288fbee4904\n\
    author A <a@b> 0 +0000\ncommitter A <a@b> 0 +0000\n\
    encoding A\nx A\n B\n\nhi\n";

/// Returns the tokens of the commit, in order.
fn tokens(alloc: Global) -> Result<Vec<Token<'static>>, Error> {
    let mut tokens = Vec::new(alloc);
    for token in CommitRefIter::from_bytes(alloc, LINES, Kind::Sha1) {
        tokens.push(token?)?;
    }
    Ok(tokens)
}

#[test]
fn tokens_of_commit_ascend(rt: HostRuntime) {
    let tokens = tokens(rt.alloc());
    assert!(rt; holds!(&tokens, Ok(it) => it.len() == 6 && are_copied(it) && are_in_order(it)));
    let last = Token::Message(BStr::new(b"hi\n"));
    assert!(rt; holds!(&tokens, Ok(it) => it.last() == Some(&last)));
}
