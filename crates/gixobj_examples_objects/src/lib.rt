//! Callers of the public calls on commits, tags and signatures, each proved by their contracts and laws alone.
//!
//! They show what users can rely on:
//!
//! - a walker of commits, a reader of messages, a store of copies;
//! - an auditor, a signer and a publisher of releases, a verifier of tags;
//! - an assembler and a rewriter of messages.
#![tactic(auto)]

pub mod assembler;
pub mod auditor;
pub mod publisher;
pub mod releases;
pub mod rewriter;
pub mod signers;
pub mod store;
pub mod verifier;
pub mod walker;
