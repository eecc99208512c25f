//! Signing and verification by external programs, which a [`Runner`] calls.

pub mod sign;
mod signed_data;
pub mod verify;

pub use gixobj_signature_reports::call::{Call, Output, RunError, Runner, Word};
pub use gixobj_signature_reports::report;
pub use signed_data::SignedData;
