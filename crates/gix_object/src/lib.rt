//! Git's objects as plain bytes, lookups in object stores, and an editor of trees.
//!
//! It re-exports what users need of the crates below:
//!
//! - ids, kinds and loose headers; actors ([`actor`]) and times ([`date`]);
//! - blobs, trees, commits, tags and objects of any kind: how they are decoded and encoded;
//! - stores: how objects are looked up in them ([`find`]) and kept by them;
//! - [`signature`]: how objects are signed and verified by other programs;
//! - [`tree::editor`]: the editor of nested trees, with complete runs of commands;
//! - [`import`]: histories imported from lists of edits;
//! - [`Error`]: one error for tools, to which `?` converts each of the others.
#![tactic(auto)]

pub mod error;
pub mod laws;
pub mod signature;
pub mod tree;

pub use error::Error;
pub use gixobj_base::{
    Blob, BlobRef, Header, Kind, OutOfMemory, Tree, WriteTo, actor, compute_hash,
    compute_stream_hash, date, decode, encode, hash, kind, stream_hash, streams,
};
pub use gixobj_codec::{
    Commit, CommitRef, CommitRefIter, Data, DataExt, Exists, Find, FindHeader, FindObjectOrHeader,
    LooseDecodeError, Object, ObjectRef, Store, Tag, TagRef, TagRefIter, TreeRef, TreeRefIter,
    commit, data, tag,
};
pub use gixobj_editor_import::import;
pub use gixobj_store_find::{FindExt, HeaderExt, Write, find, write};
pub use gixobj_store_keep::{Keep, KeepCommit, KeepError, Memory, MemoryIds};
