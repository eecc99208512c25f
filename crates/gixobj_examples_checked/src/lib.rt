//! An object store that takes only what git takes, proved by the contracts of public calls alone.
#![tactic(auto)]

pub mod received;

pub use received::{ReceiveError, ReceivedObjects, receive_all};
