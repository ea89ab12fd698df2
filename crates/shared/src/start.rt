//! The name of a new line.

ghost use Rattle.std.specs.Prelude.{◌≡◌, ◌<◌, ◌≤◌, IfOk};
ghost use Rattle.shared.specs.Limits.{seats_max};

use crate::faults::NewFault;
use history::Opened;
use std::sync::ledger::Blank;

/// The name of a new line: a history and a ledger of its own. The program that makes the line calls
/// a function that is generic in `Origin`, and that call determines the name.
#[derive(Drop)]
pub struct Start {
    pub opened: Opened,
    pub blank: Blank,
    pub seats: u8,
    ghost parts: { blank.parts ≡ seats },
    ghost some: { 0 < seats },
    ghost few: { seats ≤ seats_max },
}

impl Start {
    /// A new name, for a line with 1 to 32 seats. Takes no memory.
    ///
    /// Fails with `NoReader` if there is no history, which never happens in a program.
    pub fn new(seats: u8) -> Result<Start, NewFault>
        requires some { 0 < seats }
        requires few { seats ≤ seats_max }
        ensures { IfOk result (λ start. start.seats ≡ seats) }
    {
        match Opened::new() {
            Some(opened) => Ok(Start {
                opened,
                blank: Blank::new(seats as u64),
                seats,
            }),
            None => Err(NewFault::NoReader),
        }
    }
}
