//! Laws of runs of scripts. The contract of each function is the law.
ghost use Rattle.std.specs.Prelude.{◌≡◌, All, List};
ghost use Rattle.std.specs.FinMap as finite;
ghost use Rattle.gixobj_editor_commands.specs.declared.command.Command.{Command};
ghost use Rattle.gixobj_cli_edit.specs.Digests.{HaveDistinctIds};
ghost use Rattle.gixobj_tree.specs.TreeEncoding.{IsDigestResult};
ghost use Rattle.gixobj_cli_edit.specs.Edits.{memory_model};
ghost use Rattle.gixobj_editor_files.specs.Files.{Table};
ghost use Rattle.gixobj_editor_files.specs.State.{State};
ghost use Rattle.gixobj_hash.specs.declared.hash.kind.Kind.{Kind};
ghost use Rattle.gixobj_editor.specs.Commands.{emitted_pairs, kept_pairs};
ghost use Rattle.gixobj_editor.specs.Replies.{IsRun};
ghost use Rattle.gixobj_editor.specs.RunTables.{AgreesWithRun};
ghost use Rattle.gixobj_store_keep.specs.Memory.{memory_objects};
ghost use Rattle.gixobj_store_keep.specs.declared.memory.Memory.{Memory};
ghost use Rattle.gixobj_tree.specs.Rewriting.{RoundTrips};

use gixobj_editor::Reply;
use gixobj_editor::laws::{consistent_run_has_table, encodable_tree_decodes_to_itself};
use gixobj_encode::encode;

/// A run over a store in memory that is empty at first, with digests as ids, has a table that agrees with it.
///
/// It requires that different emitted trees have different ids, the empty tree included, and that no id is
/// null. The entries of each kept tree must round-trip.
pub fn digest_run_has_table(replies: &[Reply<encode::Error>])
    ensures { (hash : Kind) (before after : State Memory) (commands : List Command)
        → memory_objects before.store ≡ finite.empty
        → IsRun memory_model (IsDigestResult hash) before commands replies.now after
        → HaveDistinctIds hash (emitted_pairs replies.now)
        → All (λ pair. All (RoundTrips hash) pair.1) (kept_pairs replies.now) → (T : Table)
        × AgreesWithRun T (memory_objects before.store) replies.now }
{
    consistent_run_has_table(replies);
    encodable_tree_decodes_to_itself();
}
