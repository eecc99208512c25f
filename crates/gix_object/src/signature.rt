//! Signatures of objects, with their formats, the signed bytes, signing and verifying (gitformat-signature).

pub use gixobj_parse::signature::{Format, SignatureRef};
pub use gixobj_signature::signature::{
    Call, Output, RunError, Runner, SignedData, Word, sign, verify,
};
