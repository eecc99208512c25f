//! Tests of tags: tokens, writing, and rejected names.

mod iterated;
mod writers;

use crate::helpers::holds;
use gixobj_base::encode;
use gixobj_base::encode::RefNameFault::{DoubleDot, Empty};
use gixobj_codec::tag::write::Error::{self, InvalidRefName, StartsWithDash};

/// A tag of the empty tree, without a tagger and without a message.
pub(crate) const BARE: &[u8] =
    b"object 4b825dc642cb6eb9a060e54bf8d69288fbee4904\ntype tree\ntag v1\n";

/// The bare tag with SHA-256 ids.
pub(crate) const BARE_SHA256: &[u8] =
    b"object 6ef19b41225c5369f1c104d45d8d85efa9b057b53b14b4b9b939dd74decc5321\n\
    type tree\ntag v1\n";

/// Errors and their messages, which are also those of the writer's errors.
const SHOWN: &[(Error, &str)] = &[
    (StartsWithDash, "the name of a tag begins with `-`"),
    (InvalidRefName(Empty), "the name of a tag: it is empty"),
    (InvalidRefName(DoubleDot), "the name of a tag: it has `..`"),
];

#[test]
fn errors_print_their_messages(rt: HostRuntime) {
    for &(error, message) in SHOWN {
        let shown = error.to_string(rt.alloc());
        assert!(rt;
            holds!(&shown, Ok(it) => it.as_str() == message),
            "{message}"
        );
        let shown = encode::Error::from(error).to_string(rt.alloc());
        assert!(rt;
            holds!(&shown, Ok(it) => it.as_str() == message),
            "{message}"
        );
    }
}
