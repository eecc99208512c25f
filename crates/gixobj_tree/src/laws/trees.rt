//! Laws of the decoder and the encoder of trees. The contract of each function is the law, and its body
//! is empty.
ghost use Rattle.std.specs.Prelude.{◌≡◌, All, List, ℕ};
ghost use Rattle.gixobj_streams.specs.Writing.{RejectsNothing};
ghost use Rattle.gixobj_hash.specs.declared.hash.kind.Kind.{Kind};
ghost use Rattle.gixobj_tree_entries.specs.Entries.{EntryView};
ghost use Rattle.gixobj_tree.specs.TreeEncoding.{IsTreeEncodeError, encode_tree};
ghost use Rattle.gixobj_tree_entries.specs.TreeDecoding.{BeginsWithEntry, DecodesToTree};
ghost use Rattle.gixobj_tree.specs.Rewriting.{HasCanonicalModes, RoundTrips};

/// A tree decodes uniquely.
///
/// An input begins with at most one entry, and bytes decode to at most one tree.
pub fn tree_decodes_uniquely()
    ensures one_entry { (kind : Kind) (input : List ℕ) (e e' : EntryView) (rest rest' : List ℕ)
        → BeginsWithEntry kind input e rest → BeginsWithEntry kind input e' rest' → (e ≡ e')
        × (rest ≡ rest') }
    ensures one_tree { (kind : Kind) (bytes : List ℕ) (entries entries' : List EntryView)
        → DecodesToTree kind bytes entries → DecodesToTree kind bytes entries' → entries ≡ entries' }
{}

/// A decoded tree re-encodes identically if the digits of each mode are those that the encoder writes.
///
/// No name of a decoded tree is rejected.
pub fn tree_reencodes_identically()
    ensures same_bytes { (kind : Kind) (bytes : List ℕ) (entries : List EntryView)
        → HasCanonicalModes kind bytes entries → DecodesToTree kind bytes entries
        × (encode_tree entries ≡ bytes) }
    ensures no_error { (kind : Kind) (bytes : List ℕ) (entries : List EntryView)
        → DecodesToTree kind bytes entries → RejectsNothing (IsTreeEncodeError entries) }
{}

/// An encoded tree decodes to itself.
///
/// Names must be without zero byte, and ids of the decoder's kind. Modes must be numbers of 16 bits other
/// than 0 and 0o140001 to 0o147777. Mode 0 is encoded as one digit; if the fifth byte of the name is a
/// space, byte 6 then requires six digits. The encoding of 0o140001 to 0o147777 omits the first digit.
pub fn tree_round_trips()
    ensures { (kind : Kind) (entries : List EntryView) → All (RoundTrips kind) entries
        → DecodesToTree kind (encode_tree entries) entries }
{}
