//! Signing and verification of objects by external programs (gitformat-signature; git-config, `gpg.program`).
#![tactic(auto)]

pub mod signature;
