//! What lines and bodies of commits and tags are decoded from: header fields (gitdatamodel), and the formats and
//! markers of armored signatures (gitformat-signature).
#![tactic(auto)]

pub mod laws;
pub mod parse;
pub mod signature;
