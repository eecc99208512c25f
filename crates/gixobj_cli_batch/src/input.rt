//! Standard input, read to its end.
ghost use Rattle.std.specs.Prelude.{IfOk};
ghost use Rattle.gixobj_cli_batch.specs.Runs.{ReadsAll};

use std::alloc::Global;
use std::io;
use std::io::Read;

/// Reads all remaining bytes. Allocates them.
pub(crate) fn read_all<R: Read>(alloc: Global, input: &mut R) -> io::Result<Vec<u8>>
    ensures { IfOk result (λ bytes. ReadsAll (R.remaining input.old) (R.remaining input.new)
        bytes.items) }
{
    let mut bytes = Vec::new(alloc);
    input.read_to_end(&mut bytes)?;
    Ok(bytes)
}
