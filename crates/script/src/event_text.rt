//! The lines of events, as in a script, alone and before those of their outputs.

ghost use Rattle.std.specs.Prelude.{◌≡◌, ◌∷◌, [], ◌++◌, OnOk, codes, decimal};
ghost use Rattle.rows.specs.Text.{words_text};
ghost use Rattle.script.specs.Inner.Lines.{word_text};
ghost use Rattle.script.specs.PlanText.{plan_words};
ghost use Rattle.script.specs.Tables.{name_in};
ghost use Rattle.script.specs.EventText.{event_text, event_words, node_text, echoed_one};

use crate::event::{Event, Node};
use crate::lines::{Word, push_values, push_words};
use crate::output::Output;
use crate::output_text::push_output;
use crate::plan_writing::push_plan;
use crate::table_names::name_of;
use queries::Plan;
use rows::{RowId, Schema, Value};
use std::alloc::AllocError;

/// Adds the line of an event after `> `, and the lines of its output.
pub fn push_echoed(
    text: &mut Vec<u8>,
    schema: &Schema,
    event: &Event,
    output: &Output,
) -> Result<(), AllocError>
    ensures { OnOk result (text.new.items ≡ text.old.items ++ echoed_one schema.now event.now output.now) }
{
    text.extend_from_slice(b"> ")?;
    push_event(text, schema, event)?;
    text.push(b'\n')?;
    push_output(text, output)
}

/// Adds the line of an event, without its end of line.
fn push_event(text: &mut Vec<u8>, schema: &Schema, event: &Event) -> Result<(), AllocError>
    ensures { OnOk result (text.new.items ≡ text.old.items ++ event_text schema.now event.now) }
{
    match event {
        Event::Begin => push_words(text, "begin", &[]),
        Event::Insert {
            transaction,
            table,
            row,
            values,
        } => {
            let name = name_of(schema, *table);
            push_insert(text, name, *transaction, *row, values.as_slice())
        }
        Event::Set {
            transaction,
            table,
            row,
            column,
            value,
        } => push_set(
            text,
            name_of(schema, *table),
            *transaction,
            *row,
            *column,
            value,
        ),
        Event::Delete {
            transaction,
            table,
            row,
        } => push_delete(text, name_of(schema, *table), *transaction, *row),
        Event::AddColumn {
            transaction,
            table,
            default,
        } => push_add_column(text, name_of(schema, *table), *transaction, default),
        Event::Get {
            transaction,
            table,
            row,
            column,
        } => push_get(text, name_of(schema, *table), *transaction, *row, *column),
        Event::Commit {
            transaction,
            worker,
        } => push_two(
            text,
            "commit",
            *transaction,
            Word::Number(u64::from(*worker)),
        ),
        Event::Abort { transaction } => push_one(text, "abort", *transaction),
        Event::Flush { count } => push_one(text, "flush", u64::from(*count)),
        Event::Base => push_words(text, "base", &[]),
        Event::Stop { bytes } => push_one(text, "stop", *bytes),
        Event::Start => push_words(text, "start", &[]),
        Event::Push { worker, seq } => {
            push_two(text, "push", u64::from(*worker), Word::Number(*seq))
        }
        Event::Deliver { index, node } => push_two(text, "deliver", *index, node_word(*node)),
        Event::Show { index } => push_one(text, "show", *index),
        Event::Open { replica, plan } => push_open(text, schema, *replica, plan),
        Event::Ask { replica } => push_one(text, "ask", u64::from(*replica)),
        Event::Renew { replica } => push_one(text, "renew", u64::from(*replica)),
        Event::Run { replica } => push_one(text, "run", u64::from(*replica)),
        Event::Version { replica } => push_one(text, "version", u64::from(*replica)),
        Event::Dump { replica } => push_one(text, "dump", u64::from(*replica)),
        Event::Restart { replica, boot } => push_two(
            text,
            "restart",
            u64::from(*replica),
            Word::Number(*boot),
        ),
        Event::Raw { node, bytes } => {
            let words = [node_word(*node), Word::Bytes(bytes.as_slice())];
            push_words(text, "raw", &words)
        }
    }
}

/// Adds a word and a number.
fn push_one(text: &mut Vec<u8>, word: &str, number: u64) -> Result<(), AllocError>
    ensures { OnOk result (text.new.items ≡ text.old.items ++ words_text (word.now ∷ decimal number ∷ [])) }
{
    push_words(text, word, &[Word::Number(number)])
}

/// Adds a word, a number and another word.
fn push_two(text: &mut Vec<u8>, word: &str, number: u64, last: Word) -> Result<(), AllocError>
    ensures { OnOk result (text.new.items
        ≡ text.old.items ++ words_text (word.now ∷ decimal number ∷ word_text last.entry ∷ [])) }
{
    push_words(text, word, &[Word::Number(number), last])
}

fn push_insert(
    text: &mut Vec<u8>,
    name: &str,
    transaction: u64,
    row: RowId,
    values: &[Value],
) -> Result<(), AllocError>
    ensures { OnOk result (text.new.items
        ≡ text.old.items ++ words_text (event_words (λ table. name.now) (Event.Insert transaction 0 row values.now))) }
{
    let words = [
        Word::Number(transaction),
        Word::Text(name),
        Word::Number(row.0),
    ];
    push_words(text, "insert", &words)?;
    push_values(text, values)
}

fn push_set<'x>(
    text: &mut Vec<u8>,
    name: &'x str,
    transaction: u64,
    row: RowId,
    column: u8,
    value: &'x Value,
) -> Result<(), AllocError>
    ensures { OnOk result (text.new.items
        ≡ text.old.items ++ words_text (event_words (λ table. name.now) (Event.Set transaction 0 row column value.now))) }
{
    let words = [
        Word::Number(transaction),
        Word::Text(name),
        Word::Number(row.0),
        Word::Number(u64::from(column)),
        Word::Value(value),
    ];
    push_words(text, "set", &words)
}

fn push_delete(
    text: &mut Vec<u8>,
    name: &str,
    transaction: u64,
    row: RowId,
) -> Result<(), AllocError>
    ensures { OnOk result (text.new.items
        ≡ text.old.items ++ words_text (event_words (λ table. name.now) (Event.Delete transaction 0 row))) }
{
    let words = [
        Word::Number(transaction),
        Word::Text(name),
        Word::Number(row.0),
    ];
    push_words(text, "delete", &words)
}

fn push_add_column<'x>(
    text: &mut Vec<u8>,
    name: &'x str,
    transaction: u64,
    default: &'x Value,
) -> Result<(), AllocError>
    ensures { OnOk result (text.new.items
        ≡ text.old.items ++ words_text (event_words (λ table. name.now) (Event.AddColumn transaction 0 default.now))) }
{
    let words = [
        Word::Number(transaction),
        Word::Text(name),
        Word::Value(default),
    ];
    push_words(text, "column", &words)
}

fn push_get(
    text: &mut Vec<u8>,
    name: &str,
    transaction: u64,
    row: RowId,
    column: u8,
) -> Result<(), AllocError>
    ensures { OnOk result (text.new.items
        ≡ text.old.items ++ words_text (event_words (λ table. name.now) (Event.Get transaction 0 row column))) }
{
    let words = [
        Word::Number(transaction),
        Word::Text(name),
        Word::Number(row.0),
        Word::Number(u64::from(column)),
    ];
    push_words(text, "get", &words)
}

fn push_open(
    text: &mut Vec<u8>,
    schema: &Schema,
    replica: u8,
    plan: &Plan,
) -> Result<(), AllocError>
    ensures { OnOk result (text.new.items
        ≡ text.old.items ++ words_text (codes "open" ∷ decimal replica ∷ plan_words (name_in schema.now) plan.now)) }
{
    push_words(text, "open", &[Word::Number(u64::from(replica))])?;
    push_plan(text, schema, plan)
}

/// The word of a node: `p`, or `r` and a replica's number.
fn node_word(node: Node) -> Word<'static>
    ensures { word_text result ≡ node_text node }
{
    match node {
        Node::Primary => Word::Text("p"),
        Node::Replica(number) => Word::Numbered("r", u64::from(number)),
    }
}
