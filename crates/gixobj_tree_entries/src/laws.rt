//! The round trip of modes. The function is empty; its contract is the law.
ghost use Rattle.std.specs.Prelude.{◌<◌, ◌+◌, ◌^◌, ℕ};
ghost use Rattle.gixobj_tree_entries.specs.Mode.{DecodesToMode, encode_mode, old_tree_type};

/// An encoded mode of 16 bits decodes to the same mode, except for 0o140001 to 0o147777.
///
/// The encoding of these modes leaves out the first digit of the type: 0o140001 is encoded as `040001`,
/// which decodes to 0o040001.
pub fn mode_round_trips()
    ensures { (mode : ℕ) → mode < 2 ^ 16
        → ¬ ((old_tree_type < mode) × (mode < old_tree_type + 4096))
        → DecodesToMode (encode_mode mode) mode }
{}
