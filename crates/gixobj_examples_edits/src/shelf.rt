//! A store of one's own, of objects in memory, in no order.
ghost use Rattle.gixobj_examples_edits.specs.Shelves.{shelf_objects};
ghost use Rattle.gix_object.specs.Stores.{IsFound};

use gix_object::hash::{ObjectId, oid};
use gix_object::laws::object_map_insert;
use gix_object::{Data, Exists, Find, FindHeader, Header, Store, find};

/// Objects with their ids, as a store. The first object of an id counts.
#[derive(Clone, Copy, Debug)]
pub struct Shelf<'a> {
    /// Each id, and the object that it names.
    pub objects: &'a [(ObjectId, Data<'a>)],
}

impl<'a> Shelf<'a> {
    /// Returns the first object of this id.
    fn first(&self, id: ObjectId) -> Option<Data<'a>>
        ensures { IsFound (shelf_objects self.now) id result }
    {
        object_map_insert();
        for (at, object) in self.objects {
            if *at == id {
                return Some(*object);
            }
        }
        None
    }
}

/// No lookup fails, except for memory.
impl Store for Shelf<'_> {
    ghost use Rattle.std.specs.Prelude.{false};

    ghost objects = { shelf_objects };

    ghost may_fail = { λ shelf id. false };
}

impl Find for Shelf<'_> {
    fn try_find<'b>(
        &self,
        id: oid<'_>,
        buffer: &'b mut Vec<u8>,
    ) -> Result<Option<Data<'b>>, find::Error> {
        let Some(object) = self.first(id.to_owned()) else {
            return Ok(None);
        };
        buffer.clear();
        buffer.extend_from_slice(object.bytes)?;
        Ok(Some(Data::new(buffer.as_slice(), object.kind, object.object_hash)))
    }
}

impl FindHeader for Shelf<'_> {
    fn try_header(&self, id: oid<'_>) -> Result<Option<Header>, find::Error> {
        let Some(object) = self.first(id.to_owned()) else {
            return Ok(None);
        };
        Ok(Some(Header {
            kind: object.kind,
            size: object.bytes.len() as u64,
        }))
    }
}

impl Exists for Shelf<'_> {
    fn exists(&self, id: oid<'_>) -> bool {
        self.first(id.to_owned()).is_some()
    }
}
