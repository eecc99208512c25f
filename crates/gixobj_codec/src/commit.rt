//! Borrowed and owned commits, their headers and their token iterator (gitdatamodel, "commits").

pub mod message;

pub use gixobj_commit::commit::{Commit, CommitRef};
pub use gixobj_commit::{
    BorrowedHeaders, ExtraHeaders, FindAll, Mergetags, OwnedHeaders, Parents, SIGNATURE_FIELD_NAME,
    SIGNATURE_FIELD_NAME_SHA256, signature_field_name,
};
pub use gixobj_text::commit::MessageRef;
pub use gixobj_tokens::{CommitRefIter, commit as ref_iter};
