//! A store that keeps nothing and finds nothing.
ghost use Rattle.std.specs.Prelude.{◌≡◌, IfErr, IfOk, IsFalse, None, Ok, false, is_some};
ghost use Rattle.std.specs.FinMap as map;
ghost use Rattle.gixobj_store.specs.Stores.{IsFound, IsFindError, named};
ghost use Rattle.gixobj_hash.specs.Hash.Borrowed.{borrowed_id};

mod header;
mod write;

use gixobj_hash::hash::oid;
use gixobj_store::{Data, Exists, Find, Store, find};

/// A store that keeps nothing and finds nothing. An object that is written to it gets its SHA-1 id.
#[derive(Clone, Copy, Debug)]
pub struct Never;

impl Store for Never {
    ghost objects = { λ store. map.empty };

    ghost may_fail = { λ store id. false };
}

/// Finds no object and never fails. Allocates nothing.
impl Find for Never {
    #[tactic(auto, using(crate::proofs::NeverResults::is_found_none_in_empty))]
    fn try_find<'a>(
        &self,
        id: oid<'_>,
        buffer: &'a mut Vec<u8>,
    ) -> Result<Option<Data<'a>>, find::Error>
        ensures found { IfOk result (IsFound map.empty (borrowed_id id.entry)) }
        ensures error { IfErr result (IsFindError (λ id. false) (borrowed_id id.entry)) }
        ensures none { result ≡ Ok None }
    {
        Ok(None)
    }
}

/// Returns `false` for each id. Allocates nothing.
impl Exists for Never {
    #[tactic(auto, using(crate::proofs::NeverResults::not_named_in_empty))]
    fn exists(&self, id: oid<'_>) -> bool
        ensures store_model { IsFalse false → result
            ≡ is_some (named map.empty (borrowed_id id.entry)) }
        ensures none { result ≡ false }
    {
        false
    }
}
