//! Objects that are decoded and encoded again, for C and for languages that call C.
//!
//! The call takes bytes and writes bytes. It keeps nothing, and returns nothing that is to be freed. Its statuses are
//! those of [`gixobj_c_codes::codes`].
#![tactic(auto)]

mod reencoding;
