use script::Reason;
use std::error::Error;
use std::fmt;

/// Why a script was not run to its end.
#[derive(Clone, Copy, Debug, PartialEq, Eq)]
pub enum RunFault {
    /// The reader failed; nothing was written.
    Read,
    /// That line of the script does not read; nothing was written.
    Script { line: u64, reason: Reason },
    /// The writer failed; a beginning of the text was written.
    Write,
    /// Out of memory; nothing was written.
    Memory,
}

impl fmt::Display for RunFault {
    ghost use Rattle.std.specs.Prelude.{Some};
    ghost use Rattle.world.specs.Scripts.{fault_text};

    ghost output = { λ fault. Some (fault_text fault) };

    fn fmt<W: fmt::Write>(&self, f: &mut fmt::Formatter<W>) -> fmt::Result {
        match *self {
            RunFault::Read => f.write_str("the script could not be read"),
            RunFault::Script { line, reason } => write!(f, "line {line}: {reason}"),
            RunFault::Write => f.write_str("the output could not be written"),
            RunFault::Memory => f.write_str("out of memory"),
        }
    }
}

impl Error for RunFault {}
