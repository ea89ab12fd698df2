//! Clients of a replica, beside its input.

use figures::Figures;
use gathering::Gathering;
use rows::Schema;

/// Where the requests of a replica's clients wait, and what is counted and told for them.
#[derive(Clone, Copy)]
pub struct Clients<'a> {
    pub gathering: &'a Gathering,
    pub figures: &'a Figures,
    /// The tables as they were opened, of which the names are told.
    pub schema: &'a Schema,
}
