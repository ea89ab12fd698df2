//! The tables of a replica at a version.

use rows::Schema;

/// The tables of a replica at a version: their names, and the kinds of their columns, those that were added too.
#[derive(Clone, Drop)]
pub struct Tables {
    pub version: u64,
    pub schema: Schema,
}
