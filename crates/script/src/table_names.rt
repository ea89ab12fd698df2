//! Tables, and the words that name them.

ghost use Rattle.std.specs.Prelude.{◌≡◌};
ghost use Rattle.script.specs.Inner.LineFaults.{because};
ghost use Rattle.script.specs.Inner.WordReading.{table_of};
ghost use Rattle.script.specs.Tables.{name_in};

use crate::faults::{LineFault, Reason};
use crate::word_reading::{is_name, text};
use rows::Schema;

/// The number of the table of that name. A word that is no name is bad, whatever tables there are.
///
/// Fails with `BadWords`, or with `NoTable` if no table has the name. Takes no memory.
#[tactic(auto, unfolding(crate::specs::Inner::WordReading::table_of))]
pub fn named_table(schema: &Schema, name: &[u8]) -> Result<u8, LineFault>
    ensures { result ≡ because (table_of schema.now name.now) }
{
    if !is_name(name) {
        return Err(LineFault::Because(Reason::BadWords));
    }
    let Some(name) = text(name) else {
        return Err(LineFault::Because(Reason::BadWords));
    };
    // There are at most 16 tables.
    schema.keeps_limits();
    match schema.table_named(name) {
        Some(table) => Ok(table as u8),
        None => Err(LineFault::Because(Reason::NoTable)),
    }
}

/// The name of a table; `?` if the schema has no such table.
pub fn name_of(schema: &Schema, table: u8) -> &str
    ensures { result.now ≡ name_in schema.now table }
{
    schema.name(table as usize).unwrap_or("?")
}
