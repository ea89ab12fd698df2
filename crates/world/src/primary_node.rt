//! The primary of a world, running or stopped.

ghost use Rattle.std.specs.Prelude.{◌≡◌, length};
ghost use Rattle.world.specs.Inner.Nodes.{durable_in};

use crate::running_primary::RunningPrimary;
use journal::{Form, MemJournal};
use rows::Commit;

/// The primary's core. While it is stopped there is none: only its journal is left, and beside it
/// the commits that the journal keeps and the form of their text, at which only the world looks.
#[derive(Drop)]
pub enum PrimaryNode {
    Running(RunningPrimary),
    Stopped {
        journal: MemJournal,
        kept: Vec<Commit>,
        form: Form,
    },
}

impl PrimaryNode {
    /// How many commits are durable.
    pub fn durable(&self) -> u64
        ensures { result ≡ length (durable_in self.now) }
    {
        match self {
            PrimaryNode::Running(primary) => primary.durable(),
            PrimaryNode::Stopped { kept, .. } => kept.len() as u64,
        }
    }
}
