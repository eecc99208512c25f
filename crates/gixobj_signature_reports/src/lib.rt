//! Calls of external programs that sign and verify, and the reports of verifiers with their evaluation
//! (gnupg, doc/DETAILS; ssh-keygen, `-Y verify`; git-config, `gpg.minTrustLevel`).
#![tactic(auto)]

pub mod arguments;
pub mod call;
pub mod report;
