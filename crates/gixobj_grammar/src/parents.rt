//! The parents of a commit, decoded one by one.
ghost use Rattle.std.specs.Prelude.{◌≡◌, All, map};
ghost use Rattle.bstr.specs.BStr.{bstr_bytes};
ghost use Rattle.gixobj_hash.specs.Hash.{IsIdHex};
ghost use Rattle.gixobj_hash.specs.Hash.Hex.{IsIdHexOfItsKind, decoded_id};

use bstr::BStr;
use gixobj_hash::hash::ObjectId;
use gixobj_hash::parse::id_of_hex;

/// An iterator over the ids of a commit's parents, in order. `CommitRef::parents` returns one.
#[derive(Clone, Copy, Debug)]
pub struct Parents<'a> {
    rest: &'a [BStr<'a>],
    ghost are_ids: { All IsIdHexOfItsKind (map bstr_bytes rest.now) },
}

impl<'a> Parents<'a> {
    ghost use Rattle.gixobj_grammar.specs.RemainingParents.{remaining_parents};

    /// Returns an iterator over the ids that these hex digits encode, in order. Allocates nothing.
    ///
    /// Each of `hexes` must be a hex id.
    #[tactic(auto, using(crate::proofs::ParentHexes::parents_are_hex_of_their_kind))]
    pub fn new(hexes: &'a [BStr<'a>]) -> Parents<'a>
        requires { All IsIdHex (map bstr_bytes hexes.now) }
        ensures { remaining_parents result ≡ map decoded_id (map bstr_bytes hexes.now) }
    {
        Parents { rest: hexes }
    }
}

/// Yields the id of the next parent. Allocates nothing.
impl Iterator for Parents<'_> {
    ghost use Rattle.std.specs.Iterator.{YieldsFirst, item_count};
    ghost use Rattle.gixobj_grammar.specs.RemainingParents.{remaining_parents};

    type Item = ObjectId;

    ghost next_gives = { YieldsFirst remaining_parents };

    ghost remaining = { item_count remaining_parents };

    #[tactic(auto, using(crate::proofs::ParentHexes::first_parent_is_id_hex))]
    fn next(&mut self) -> Option<ObjectId> {
        let [first, rest @ ..] = self.rest else {
            return None;
        };
        self.rest = rest;
        Some(id_of_hex(*first))
    }
}
