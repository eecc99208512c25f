//! Report lines of replies that no script over a store in memory has.

use crate::runs::samples::reports;
use gixobj_base::encode;
use gixobj_base::hash::ObjectId;
use gixobj_editor::editor::{Error, WriteError, Written};
use gixobj_editor::{EditReply, Reply};
use gixobj_store_keep::KeepError;

/// The report of a slash in a name, of an edit, a tree's id, a write, a store and a cursor that run out of memory,
/// and of a root that isn't well-formed.
const LINES: &str = "refused 2
refused 6
refused out
refused memory
unkept 0101010101010101010101010101010101010101
refused 6
refused 5
lookups 18446744073709551615
";

#[test]
fn reports_errors_that_no_script_has(rt: HostRuntime) {
    let slash: EditReply<encode::Error> = EditReply::Refused(Error::SlashInPathComponent);
    let written = Written {
        id: ObjectId::Sha1([1; 20]),
        trees: Vec::new(rt.alloc()),
        saved: 0,
    };
    let replies = [
        Reply::Edit(slash),
        Reply::Edit(EditReply::Refused(Error::OutOfMemory)),
        Reply::Edit(EditReply::WriteRefused(WriteError::Out(encode::Error::OutOfMemory))),
        Reply::Edit(EditReply::WriteRefused(WriteError::OutOfMemory)),
        Reply::Edit(EditReply::NotKept(written, 0, KeepError::OutOfMemory)),
        Reply::AtRefused(Error::OutOfMemory),
        Reply::RootRefused,
    ];
    assert!(rt; reports(rt.alloc(), &replies, u64::MAX, LINES));
}
