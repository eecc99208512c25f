//! Short byte strings, assembled on the stack so that a sink gets them in one call.
ghost use Rattle.std.specs.Prelude.{◌≡◌, ◌≤◌, ◌+◌, ◌++◌, [], length};

use std::marker::Model;

/// A byte string of at most 80 bytes on the stack. The end of an actor's line is shorter.
///
/// [`ShortString::new`] makes one. No call allocates.
#[derive(Drop)]
pub struct ShortString {
    bytes: [u8; 80],
    len: usize,
}

impl Model for ShortString {
    ghost use Rattle.std.specs.Prelude.{◌≤◌, ℕ, List, take};

    ghost Value = { List ℕ };

    ghost view = { λ it. take it.len it.bytes };

    ghost invariant = { λ it. it.len ≤ 80 };
}

impl ShortString {
    /// Creates an empty string.
    #[inline(always)]
    pub fn new() -> ShortString
        ensures { result ≡ [] }
    {
        ShortString {
            bytes: [0; 80],
            len: 0,
        }
    }

    /// Appends bytes. The caller ensures that the result has at most 80 bytes.
    #[inline(always)]
    pub fn extend(&mut self, more: &[u8])
        requires has_capacity { length self.old + length more.now ≤ 80 }
        ensures { self.new ≡ self.old ++ more.now }
    {
        let end = self.len + more.len();
        self.bytes[self.len..end].copy_from_slice(more);
        self.len = end;
    }

    /// Returns the bytes.
    #[inline(always)]
    pub fn as_bytes(&self) -> &[u8]
        ensures { result.now ≡ self.now }
    {
        &self.bytes[..self.len]
    }
}
