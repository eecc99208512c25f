//! Git's messages about one tree, commit or tag: names, severities and sets. `git fsck` prints them.
//!
//! Messages about references, and about the content of `.gitmodules` and `.gitattributes`, aren't here (`git-fsck`,
//! "FSCK MESSAGES").
#![tactic(auto)]

pub mod finding;
pub mod iter;
pub mod message;
pub mod options;
pub mod set;
pub mod severity;

pub use finding::Finding;
pub use iter::MessagesIter;
pub use message::Message;
pub use options::{Options, Override, OverrideError};
pub use set::Messages;
pub use severity::Severity;
