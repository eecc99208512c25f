//! Lookups of headers in the store that finds nothing.
ghost use Rattle.std.specs.Prelude.{◌≡◌, IfErr, IfOk, None, Ok, false};
ghost use Rattle.std.specs.FinMap as map;
ghost use Rattle.gixobj_store.specs.Stores.{IsHeaderFound, IsFindError};
ghost use Rattle.gixobj_hash.specs.Hash.Borrowed.{borrowed_id};

use super::Never;
use gixobj_hash::Header;
use gixobj_hash::hash::oid;
use gixobj_store::{FindHeader, find};

/// Finds no header and never fails. Allocates nothing.
impl FindHeader for Never {
    #[tactic(auto, using(crate::proofs::NeverResults::is_header_found_none_in_empty))]
    fn try_header(&self, id: oid<'_>) -> Result<Option<Header>, find::Error>
        ensures found { IfOk result (IsHeaderFound map.empty (borrowed_id id.entry)) }
        ensures error { IfErr result (IsFindError (λ id. false) (borrowed_id id.entry)) }
        ensures none { result ≡ Ok None }
    {
        Ok(None)
    }
}
