//! Standard output.
ghost use Rattle.std.specs.Prelude.{OnErr, OnOk};
ghost use Rattle.std.specs.Io.KnownBytes.{Appends};
ghost use Rattle.gixobj_cli_batch.specs.Runs.{AppendsPrefix};

use gix_object::streams::{Sink, ToWrite};
use std::io;
use std::io::Write;

/// Writes lines, and flushes them. If the output fails, a prefix of them was written. Only the output may allocate.
pub(crate) fn write_lines<O: Write>(output: &mut O, lines: &[u8]) -> io::Result<()>
    ensures written { OnOk result (Appends (O.contents output.old) (O.contents output.new)
        lines.now) }
    ensures error { OnErr result (AppendsPrefix (O.contents output.old) (O.contents output.new)
        lines.now) }
{
    write_all(output, lines)?;
    output.flush()
}

/// Writes bytes. If the output fails, a prefix of them was written.
fn write_all<O: Write>(output: &mut O, bytes: &[u8]) -> io::Result<()>
    ensures written { OnOk result (Appends (O.contents output.old) (O.contents output.new)
        bytes.now) }
    ensures error { OnErr result (AppendsPrefix (O.contents output.old) (O.contents output.new)
        bytes.now) }
{
    let mut sink = ToWrite(output);
    sink.write_bytes(bytes)
}
