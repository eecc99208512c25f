//! The ids of a store in memory.

use super::Stored;
use gixobj_hash::hash::ObjectId;
use std::collections::btree_map::Keys;

/// An iterator over the ids of a store in memory, in the order of their bytes. [`Memory::ids`] returns one.
///
/// [`Memory::ids`]: super::Memory::ids
#[derive(Drop)]
pub struct MemoryIds<'a> {
    pub(super) keys: Keys<'a, ObjectId, Stored>,
}

/// Yields the next id. Allocates nothing.
impl Iterator for MemoryIds<'_> {
    ghost use Rattle.std.specs.Iterator.{YieldsFirst, item_count};
    ghost use Rattle.gixobj_store_keep.specs.Memory.{remaining_ids};

    type Item = ObjectId;

    ghost next_gives = { YieldsFirst remaining_ids };

    ghost remaining = { item_count remaining_ids };

    fn next(&mut self) -> Option<ObjectId> {
        match self.keys.next() {
            Some(id) => Some(*id),
            None => None,
        }
    }
}
