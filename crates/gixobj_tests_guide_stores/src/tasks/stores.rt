//! A store of a caller's own.

use gix_object::hash::{ObjectId, oid};
use gix_object::laws::object_map_insert;
use gix_object::{Data, Find, Store, find};

/// A store with one more object, which is looked up first.
#[derive(Drop)]
pub struct Overlay<'a, S> {
    pub store: S,
    pub id: ObjectId,
    pub object: Data<'a>,
}

/// The model of the store: the objects of `store`, and `object` under `id`.
impl<S: Store> Store for Overlay<'_, S> {
    ghost use Rattle.gix_object.specs.Stores.{stored};
    ghost use Rattle.std.specs.FinMap as finite;

    ghost objects = { λ it. finite.insert (S.objects it.store) it.id (stored it.object) };

    ghost may_fail = { λ it. S.may_fail it.store };
}

impl<S: Find> Find for Overlay<'_, S> {
    fn try_find<'b>(
        &self,
        id: oid<'_>,
        buffer: &'b mut Vec<u8>,
    ) -> Result<Option<Data<'b>>, find::Error> {
        object_map_insert();
        if id.to_owned() != self.id {
            return self.store.try_find(id, buffer);
        }
        buffer.clear();
        buffer.extend_from_slice(self.object.bytes)?;
        Ok(Some(Data::new(buffer.as_slice(), self.object.kind, self.object.object_hash)))
    }
}
