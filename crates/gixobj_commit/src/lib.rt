//! Decoding, copying, signing and encoding of commits (gitdatamodel, "commits"). [`gixobj_grammar::lines`]
//! decodes their lines, here and for the token iterators of a later crate.
#![tactic(auto)]

pub mod commit;
mod extra_headers;

pub use commit::{Commit, CommitRef};
pub use extra_headers::{
    BorrowedHeaders, ExtraHeaders, FindAll, Mergetags, OwnedHeaders, SIGNATURE_FIELD_NAME,
    SIGNATURE_FIELD_NAME_SHA256, signature_field_name,
};
pub use gixobj_grammar::parents::Parents;
