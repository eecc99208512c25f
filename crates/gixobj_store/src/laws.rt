//! Laws of the tree readers and of object stores. Each function does nothing: its contract is the law.
ghost use Rattle.std.specs.Prelude.{◌≡◌, ◌≢◌, ◌⊎◌, ◌++◌, ◌∷◌, [], ℕ, Err, List, None, Ok, Option, Result, Some};
ghost use Rattle.std.specs.FinMap as finite;
ghost use Rattle.gixobj_hash.specs.Runs.{Ending, broken, complete};
ghost use Rattle.gixobj_hash.specs.declared.decode.Error.{Error};
ghost use Rattle.gixobj_hash.specs.declared.hash.kind.Kind.{Kind};
ghost use Rattle.gixobj_hash.specs.declared.hash.object_id.ObjectId.{ObjectId};
ghost use Rattle.gixobj_tree_entries.specs.Entries.{EntryView};
ghost use Rattle.gixobj_tree_entries.specs.TreeDecoding.{DecodesToTree, YieldsEntries};
ghost use Rattle.gixobj_tree_entries.specs.EntryViews.{entry_view};
ghost use Rattle.gixobj_tree_entries.specs.declared.entry_ref.EntryRef.{EntryRef};
ghost use Rattle.gixobj_store.specs.EntrySteps.{NextEntry, HasConsumedEntries, IsAtEntry, IsTail, remaining_tree_bytes};
ghost use Rattle.gixobj_store.specs.Stores.{Objects, StoredObject, named};
ghost use Rattle.gixobj_store.specs.TreeReaders.{IsLongestPrefix};
ghost use Rattle.gixobj_store.specs.declared.tree.TreeRefIter.{TreeRefIter};

/// The tree decoder and the iterator over entries accept the same trees.
///
/// - `yields`: the iterator yields all entries of an encoded tree, and then ends without an error.
/// - `decodes`: bytes that the iterator yields without an error are the encoding of the tree of these entries.
/// - `before_an_error`: the entries yielded before an error are those of the longest prefix that encodes a
///   tree.
/// - `one_run`: bytes have one list of yielded entries, and one ending.
pub fn tree_readers_agree()
    ensures yields { (kind : Kind) (bytes : List ℕ) (entries : List EntryView)
        → DecodesToTree kind bytes entries → YieldsEntries kind bytes entries complete }
    ensures decodes { (kind : Kind) (bytes : List ℕ) (entries : List EntryView)
        → YieldsEntries kind bytes entries complete → DecodesToTree kind bytes entries }
    ensures before_an_error { (kind : Kind) (bytes : List ℕ) (entries : List EntryView)
        → YieldsEntries kind bytes entries broken → IsLongestPrefix kind bytes entries }
    ensures one_run { (kind : Kind) (bytes : List ℕ) (entries entries' : List EntryView)
        (ending ending' : Ending) → YieldsEntries kind bytes entries ending
        → YieldsEntries kind bytes entries' ending' → (entries ≡ entries') × (ending ≡ ending') }
{}

/// The entries that an iterator has consumed are those that the tree's bytes yield.
///
/// - `starts`: a new iterator has consumed no entry.
/// - `continues`: each yielded entry is appended to the consumed ones.
/// - `ends`: at the end of the iterator, the bytes yield the consumed entries and no error.
/// - `stops`: at an error, the bytes yield the consumed entries and then an error.
pub fn consumed_entries_are_prefix()
    ensures starts { (kind : Kind) (bytes : List ℕ) (reader : TreeRefIter)
        → IsAtEntry kind bytes reader → HasConsumedEntries kind bytes [] reader }
    ensures continues { (kind : Kind) (bytes : List ℕ) (entries : List EntryView)
        (at after : TreeRefIter) (entry : EntryRef) → HasConsumedEntries kind bytes entries at
        → NextEntry at (Some (Ok entry)) after
        → HasConsumedEntries kind bytes (entries ++ entry_view entry ∷ []) after }
    ensures ends { (kind : Kind) (bytes : List ℕ) (entries : List EntryView)
        (at after : TreeRefIter)
        → HasConsumedEntries kind bytes entries at → NextEntry at None after
        → YieldsEntries kind bytes entries complete }
    ensures stops { (kind : Kind) (bytes : List ℕ) (entries : List EntryView)
        (at after : TreeRefIter) (error : Error) → HasConsumedEntries kind bytes entries at
        → NextEntry at (Some (Err error)) after → YieldsEntries kind bytes entries broken }
{}

/// The remaining bytes of an iterator are a suffix of the tree's bytes, at its start and after each call.
///
/// [`TreeRefIter::offset_to_next_entry`](crate::TreeRefIter::offset_to_next_entry) requires this suffix.
pub fn remaining_bytes_are_suffix()
    ensures starts { (kind : Kind) (bytes : List ℕ) (reader : TreeRefIter)
        → IsAtEntry kind bytes reader → IsTail bytes (remaining_tree_bytes reader) }
    ensures continues { (bytes : List ℕ) (at after : TreeRefIter)
        (item : Option (Result EntryRef Error)) → IsTail bytes (remaining_tree_bytes at)
        → NextEntry at item after → IsTail bytes (remaining_tree_bytes after) }
{}

/// Insertion in a map from ids to objects.
///
/// - `empty`: in an empty map an id names no object.
/// - `inserted`: an inserted id names the inserted object.
/// - `unchanged`: each other id names what it named before.
///
/// So after a list is inserted from its last object to its first, an id names the first object listed with
/// it.
pub fn object_map_insert()
    ensures empty { (id : ObjectId) → named finite.empty id ≡ None }
    ensures inserted { (objects : Objects) (id : ObjectId) (it : StoredObject)
        → named (finite.insert objects id it) id ≡ Some it }
    ensures unchanged { (objects : Objects) (id other : ObjectId) (it : StoredObject) → other ≢ id
        → named (finite.insert objects id it) other ≡ named objects other }
{}

/// Two ids are equal or different.
///
/// So a statement holds for all ids if it holds for one id, such as the empty tree's, and for each other one.
pub fn id_equality_is_decidable()
    ensures { (id other : ObjectId) → (id ≡ other) ⊎ (id ≢ other) }
{}
