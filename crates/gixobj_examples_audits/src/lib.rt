//! Audits of runs and imports: what they changed, and what their stores have then; of two stores, whether their
//! roots have the same files. Each is proved by public contracts, laws and lemmas.
#![tactic(auto)]

pub mod canonical;
pub mod imports;
pub mod laws;
pub mod mirrors;
pub mod runs;
