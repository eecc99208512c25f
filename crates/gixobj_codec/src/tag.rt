//! Borrowed and owned tags, and their token iterator (gitdatamodel, "tag objects").

pub use gixobj_tag::tag::{Tag, TagRef, write};
pub use gixobj_tokens::{TagRefIter, tag as ref_iter};
