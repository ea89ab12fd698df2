//! What is told of a node besides its rows.

use figures::Figures;
use std::fs::File;

/// What is told of a node besides its rows.
#[derive(Drop)]
pub struct NodeFacts<'a> {
    /// The program's version.
    pub version: &'a str,
    /// The digest of the schema file by SHA-256, in hexadecimal digits.
    pub schema: &'a str,
    /// The journal's file, of which the length is told.
    pub journal: Option<&'a File>,
    /// What the node's threads count.
    pub figures: &'a Figures,
}

impl NodeFacts<'_> {
    /// How many bytes the journal has; 0 if the system does not tell.
    pub(crate) fn journal_bytes(&self) -> u64 {
        match self.journal.map(File::metadata) {
            Some(Ok(found)) => found.len(),
            _ => 0,
        }
    }
}
