//! What is told of a replica besides its reports.

use figures::Figures;
use script::Setup;

/// What is told of a replica besides its reports.
#[derive(Drop)]
pub struct ReplicaFacts<'a> {
    /// The program's version.
    pub version: &'a str,
    /// The digest of the schema file by SHA-256, in hexadecimal digits.
    pub schema: &'a str,
    pub setup: &'a Setup,
    /// The replica's number, and that of its boot.
    pub number: u8,
    pub boot: u64,
    /// What the node's threads count.
    pub figures: &'a Figures,
}
