//! Lines of output, written at once.

ghost use Rattle.std.specs.Prelude.{◌≡◌, OnOk};
ghost use Rattle.std.specs.Io.KnownBytes.{Appends};

use crate::faults::NodeFault;
use std::io::Write;

/// Writes a text and flushes it. Where the output fails, a beginning of the text may be written.
pub fn print<W: Write>(writer: &mut W, text: &[u8]) -> Result<(), NodeFault>
    ensures { OnOk result (Appends (W.contents writer.old) (W.contents writer.new) text.now) }
{
    let written = match writer.write_all(text) {
        Ok(()) => writer.flush(),
        Err(error) => Err(error),
    };
    match written {
        Ok(()) => Ok(()),
        Err(error) => Err(NodeFault::Output(error)),
    }
}
