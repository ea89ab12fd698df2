//! What a connection is read from and written to.

use std::io::{self, Read, Write};
use std::net::{Shutdown, TcpStream};

/// A stream of bytes in both directions, whose calls give `WouldBlock` instead of waiting, or of
/// waiting for long. A read that fills less than its room has taken all that had come: of what comes
/// later, whoever has the connection is told.
pub trait Socket: Read + Write {
    /// Says to the other side that nothing more is written.
    fn end_writing(&mut self) -> io::Result<()>;
}

impl Socket for mio::net::TcpStream {
    fn end_writing(&mut self) -> io::Result<()> {
        self.shutdown(Shutdown::Write)
    }
}

impl Socket for TcpStream {
    fn end_writing(&mut self) -> io::Result<()> {
        self.shutdown(Shutdown::Write)
    }
}
