//! The answer to a connection for which there is no place.

ghost use Rattle.std.specs.Prelude.{take, IfOk};
ghost use Rattle.std.specs.Io.KnownBytes.{Appends};
ghost use Rattle.service.specs.Denials.{full_text};

use crate::socket::Socket;
use std::io::{self, Write};

/// What one connection more than there are places is sent, whatever it asks.
pub const FULL: &[u8] = b"HTTP/1.1 503 Service Unavailable\r\n\
content-type: text/plain; charset=us-ascii\r\ncache-control: no-store\r\nretry-after: 1\r\n\
connection: close\r\ncontent-length: 5\r\n\r\nfull\n";

/// Sends these bytes, or the first of them. How many.
fn send_full<W: Write>(writer: &mut W) -> io::Result<usize>
    ensures { IfOk result (λ count. Appends (W.contents writer.old) (W.contents writer.new) (take count full_text)) }
{
    writer.write(FULL)
}

/// Says that there is no place, and takes what has come, so that the answer is not lost to a reset.
pub(crate) fn refuse<T: Socket>(socket: &mut T) {
    let _ = send_full(socket);
    let _ = socket.end_writing();
    let mut buffer = [0u8; 4096];
    let _ = socket.read(&mut buffer);
}
