//! Reading the events of transactions, from the words after the first.

ghost use Rattle.std.specs.Prelude.{◌≡◌, map};
ghost use Rattle.script.specs.Inner.LineFaults.{Gives, because};
ghost use Rattle.script.specs.Inner.Reading.{begin_of, insert_of, set_of, delete_of, add_column_of, get_of, commit_of, abort_of, row_of};

use crate::event::Event;
use crate::faults::{LineFault, Reason};
use crate::line_forms::{
    five_words, four_words, one_word, three_words, three_words_and_more, two_words,
};
use crate::setup::Setup;
use crate::table_names::named_table;
use crate::value_reading::read_values;
use crate::word_reading::{number, number_below, small_number, value_of};
use rows::{Row, RowId, Schema};
use std::alloc::Global;

/// Reads `begin`.
#[tactic(auto, unfolding(crate::specs::Inner::Reading::begin_of))]
pub fn read_begin(words: &[&[u8]]) -> Option<Event>
    ensures { result ≡ begin_of (map (λ word. word.now) words.now) }
{
    match words {
        [] => Some(Event::Begin),
        _ => None,
    }
}

/// Reads `insert T NAME ROW V..`.
#[tactic(auto, unfolding(crate::specs::Inner::Reading::insert_of))]
pub fn read_insert(alloc: Global, schema: &Schema, words: &[&[u8]]) -> Result<Event, LineFault>
    ensures { Gives (insert_of schema.now (map (λ word. word.now) words.now)) result }
{
    let Some((transaction, name, row, values)) = three_words_and_more(words) else {
        return Err(LineFault::Because(Reason::BadWords));
    };
    let Some((transaction, row)) = transaction_and_row(transaction, row) else {
        return Err(LineFault::Because(Reason::BadWords));
    };
    let values = read_values(alloc, values)?;
    let table = named_table(schema, name)?;
    Ok(Event::Insert {
        transaction,
        table,
        row,
        values: Row::from_vec(values),
    })
}

/// Reads `set T NAME ROW COL V`.
#[tactic(auto, unfolding(crate::specs::Inner::Reading::set_of))]
pub fn read_set(schema: &Schema, words: &[&[u8]]) -> Result<Event, LineFault>
    ensures { result ≡ because (set_of schema.now (map (λ word. word.now) words.now)) }
{
    let Some((transaction, name, row, column, value)) = five_words(words) else {
        return Err(LineFault::Because(Reason::BadWords));
    };
    let Some((transaction, row)) = transaction_and_row(transaction, row) else {
        return Err(LineFault::Because(Reason::BadWords));
    };
    let Some(column) = small_number(column) else {
        return Err(LineFault::Because(Reason::BadWords));
    };
    let Some(value) = value_of(value) else {
        return Err(LineFault::Because(Reason::BadWords));
    };
    let table = named_table(schema, name)?;
    Ok(Event::Set {
        transaction,
        table,
        row,
        column,
        value,
    })
}

/// Reads `delete T NAME ROW`.
#[tactic(auto, unfolding(crate::specs::Inner::Reading::delete_of))]
pub fn read_delete(schema: &Schema, words: &[&[u8]]) -> Result<Event, LineFault>
    ensures { result ≡ because (delete_of schema.now (map (λ word. word.now) words.now)) }
{
    let Some((transaction, name, row)) = three_words(words) else {
        return Err(LineFault::Because(Reason::BadWords));
    };
    let Some((transaction, row)) = transaction_and_row(transaction, row) else {
        return Err(LineFault::Because(Reason::BadWords));
    };
    let table = named_table(schema, name)?;
    Ok(Event::Delete {
        transaction,
        table,
        row,
    })
}

/// Reads `column T NAME V`.
#[tactic(auto, unfolding(crate::specs::Inner::Reading::add_column_of))]
pub fn read_add_column(schema: &Schema, words: &[&[u8]]) -> Result<Event, LineFault>
    ensures { result ≡ because (add_column_of schema.now (map (λ word. word.now) words.now)) }
{
    let Some((transaction, name, value)) = three_words(words) else {
        return Err(LineFault::Because(Reason::BadWords));
    };
    let Some(transaction) = number(transaction) else {
        return Err(LineFault::Because(Reason::BadWords));
    };
    let Some(default) = value_of(value) else {
        return Err(LineFault::Because(Reason::BadWords));
    };
    let table = named_table(schema, name)?;
    Ok(Event::AddColumn {
        transaction,
        table,
        default,
    })
}

/// Reads `get T NAME ROW COL`.
#[tactic(auto, unfolding(crate::specs::Inner::Reading::get_of))]
pub fn read_get(schema: &Schema, words: &[&[u8]]) -> Result<Event, LineFault>
    ensures { result ≡ because (get_of schema.now (map (λ word. word.now) words.now)) }
{
    let Some((transaction, name, row, column)) = four_words(words) else {
        return Err(LineFault::Because(Reason::BadWords));
    };
    let Some((transaction, row)) = transaction_and_row(transaction, row) else {
        return Err(LineFault::Because(Reason::BadWords));
    };
    let Some(column) = small_number(column) else {
        return Err(LineFault::Because(Reason::BadWords));
    };
    let table = named_table(schema, name)?;
    Ok(Event::Get {
        transaction,
        table,
        row,
        column,
    })
}

/// Reads `commit T W`.
#[tactic(auto, unfolding(crate::specs::Inner::Reading::commit_of))]
pub fn read_commit(setup: &Setup, words: &[&[u8]]) -> Option<Event>
    ensures { result ≡ commit_of setup.now.workers (map (λ word. word.now) words.now) }
{
    let (transaction, committer) = two_words(words)?;
    Some(Event::Commit {
        transaction: number(transaction)?,
        worker: number_below(committer, setup.workers)?,
    })
}

/// Reads `abort T`.
#[tactic(auto, unfolding(crate::specs::Inner::Reading::abort_of))]
pub fn read_abort(words: &[&[u8]]) -> Option<Event>
    ensures { result ≡ abort_of (map (λ word. word.now) words.now) }
{
    let transaction = one_word(words)?;
    Some(Event::Abort {
        transaction: number(transaction)?,
    })
}

/// A transaction's number and a row's identifier.
#[tactic(auto, unfolding(crate::specs::Inner::Reading::row_of))]
fn transaction_and_row(transaction: &[u8], row: &[u8]) -> Option<(u64, RowId)>
    ensures { result ≡ row_of transaction.now row.now }
{
    Some((number(transaction)?, RowId(number(row)?)))
}
