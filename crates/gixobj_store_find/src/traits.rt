//! Traits that every store implements, and the trait of stores that write objects.

mod find_ext;
mod header_ext;
mod write;

pub use find_ext::FindExt;
pub use header_ext::HeaderExt;
pub use write::Write;
