//! Reading the settings of a script, line by line.

ghost use Rattle.std.specs.Prelude.{◌≡◌, ◌≢◌, ◌<◌, ◌^◌, ◌∷◌, [], ◌++◌, ℕ, List, true, map, decimal, slice_get, codes, IfOk};
ghost use Rattle.std.specs.Prelude.{MatchOption, MatchResult, false};
ghost use Rattle.std.specs.List.{list_all};
ghost use Rattle.std.specs.Option.{option_map};
ghost use Rattle.rows.specs.Shape.{given, is_good};
ghost use Rattle.rows.specs.declared.kind.Kind.{Kind};
ghost use Rattle.script.specs.Text.{is_name};
ghost use Rattle.script.specs.Settings.{AreSettings, IsCount, IsNextSetting, kind_text};
ghost use Rattle.script.specs.Inner.LineFaults.{OrMemory};
ghost use Rattle.script.specs.Inner.SettingWords.{texts, IsTable, IsNoTable, AreKinds, AreNoKinds, IsTableMore, IsNoTableMore};
ghost use Rattle.script.specs.Inner.SettingWords.{IsSettingFault};
ghost use Rattle.script.specs.Inner.SettingWords.{IsSchemaOf, IsNoSchemaOf};

use crate::faults::{LineFault, Reason};
use crate::setup::Setup;
use crate::word_reading::{is_name, small_number, words_of};
use rows::limits::{REPLICAS_MAX, WORKERS_MAX};
use rows::{Kind, Schema, SchemaFault};
use std::alloc::{AllocError, Global};

/// The settings that have been read so far, in their order.
#[derive(Drop)]
pub enum Settings {
    Nothing,
    Workers(u8),
    Replicas { workers: u8, replicas: u8 },
    Ready(Setup),
}

/// Reads the next setting: the workers, then the replicas, then the tables.
pub fn read_setting(alloc: Global, settings: Settings, line: &[u8]) -> Result<Settings, LineFault>
    requires { AreSettings settings }
    ensures { MatchResult result (IsNextSetting settings line.now) (OrMemory (IsSettingFault settings line.now)) }
{
    let Ok(words) = words_of(alloc, line) else {
        return Err(LineFault::Memory);
    };
    let words = words.as_slice();
    match settings {
        Settings::Nothing => match count_of(words, b"workers", WORKERS_MAX) {
            Some(workers) => Ok(Settings::Workers(workers)),
            None => Err(LineFault::Because(Reason::BadSetting)),
        },
        Settings::Workers(workers) => match count_of(words, b"replicas", REPLICAS_MAX) {
            Some(replicas) => Ok(Settings::Replicas { workers, replicas }),
            None => Err(LineFault::Because(Reason::BadSetting)),
        },
        Settings::Replicas { workers, replicas } => match first_table(alloc, words) {
            Ok(schema) => Ok(Settings::Ready(Setup {
                schema,
                workers,
                replicas,
            })),
            Err(fault) => Err(fault),
        },
        Settings::Ready(setup) => match next_table(alloc, &setup.schema, words) {
            Ok(schema) => Ok(Settings::Ready(Setup {
                schema,
                workers: setup.workers,
                replicas: setup.replicas,
            })),
            Err(fault) => Err(fault),
        },
    }
}

/// The count that the words set, for this name: at least 1, and at most a limit.
fn count_of(words: &[&[u8]], name: &[u8], limit: u8) -> Option<u8>
    ensures { MatchOption result
        ((count : ℕ) → IsCount limit count → texts words.now ≢ name.now ∷ decimal count ∷ [])
        (λ count. IsCount limit count × (texts words.now ≡ name.now ∷ decimal count ∷ [])) }
{
    let count = small_number(word_behind(words, name)?)?;
    if count == 0 || count > limit {
        return None;
    }
    Some(count)
}

/// The one word after a name.
fn word_behind<'a>(words: &[&'a [u8]], name: &[u8]) -> Option<&'a [u8]>
    ensures { MatchOption result
        ((word : List ℕ) → texts words.now ≢ name.now ∷ word ∷ [])
        (λ word. texts words.now ≡ name.now ∷ word.now ∷ []) }
{
    if words.len() != 2 {
        return None;
    }
    if words[0] == name {
        Some(words[1])
    } else {
        None
    }
}

/// The schema of the one table that the words set.
fn first_table(alloc: Global, words: &[&[u8]]) -> Result<Schema, LineFault>
    ensures { MatchResult result (IsTableMore [] (texts words.now)) (OrMemory (IsNoTableMore [] (texts words.now))) }
{
    match read_table(alloc, words) {
        Ok((name, kinds)) => schema_of(alloc, &[(name, kinds.as_slice())]),
        Err(fault) => Err(fault),
    }
}

/// The schema of the tables so far, and of the one after them that the words set.
fn next_table(alloc: Global, so_far: &Schema, words: &[&[u8]]) -> Result<Schema, LineFault>
    ensures { MatchResult result (IsTableMore so_far.now (texts words.now)) (OrMemory (IsNoTableMore so_far.now (texts words.now))) }
{
    match read_table(alloc, words) {
        Ok((name, kinds)) => longer_schema(alloc, so_far, name, kinds.as_slice()),
        Err(fault) => Err(fault),
    }
}

/// The name of the table that the words set, and the kinds of its columns.
fn read_table<'a>(alloc: Global, words: &[&'a [u8]]) -> Result<(&'a str, Vec<Kind>), LineFault>
    ensures { MatchResult result
        (λ read. IsTable (texts words.now) (read.0.now, read.1.items))
        (OrMemory (IsNoTable (texts words.now))) }
{
    let Some((name, kinds)) = table_parts(words) else {
        return Err(LineFault::Because(Reason::BadSetting));
    };
    match read_kinds(alloc, kinds) {
        Ok(kinds) => Ok((name, kinds)),
        Err(fault) => Err(fault),
    }
}

/// The name after the word `table`, and the words after that.
fn table_parts<'a, 'x>(words: &'x [&'a [u8]]) -> Option<(&'a str, &'x [&'a [u8]])>
    ensures { MatchOption result
        ((name : List ℕ) (rest : List (List ℕ)) → is_name name ≡ true → texts words.now ≢ codes "table" ∷ name ∷ rest)
        (λ read. (is_name read.0.now ≡ true) × (texts words.now ≡ codes "table" ∷ read.0.now ∷ texts read.1.now)) }
{
    match words {
        [first, name, rest @ ..] if *first == b"table".as_slice() => Some((name_of(name)?, rest)),
        _ => None,
    }
}

/// The word as text, if it has the form of a table's name.
fn name_of(word: &[u8]) -> Option<&str>
    ensures { MatchOption result (is_name word.now ≡ false) (λ name. (name.now ≡ word.now) × (is_name word.now ≡ true)) }
{
    if !is_name(word) {
        return None;
    }
    match std::str::from_utf8(word) {
        Ok(name) => Some(name),
        Err(_) => None,
    }
}

/// The kinds of columns that the words name.
fn read_kinds(alloc: Global, words: &[&[u8]]) -> Result<Vec<Kind>, LineFault>
    ensures { MatchResult result (λ kinds. AreKinds (texts words.now) kinds.items) (OrMemory (AreNoKinds (texts words.now))) }
{
    let mut kinds = Vec::new(alloc);
    for word in words {
        let Some(kind) = kind_of(word) else {
            return Err(LineFault::Because(Reason::BadSetting));
        };
        if kinds.push(kind).is_err() {
            return Err(LineFault::Memory);
        }
    }
    Ok(kinds)
}

/// The kind of a column that a word stands for: `int`, or `bytes` and how many there are.
fn kind_of(word: &[u8]) -> Option<Kind>
    ensures { MatchOption result
        ((kind : Kind) → is_good kind ≡ true → kind_text kind ≢ word.now)
        (λ kind. (is_good kind ≡ true) × (kind_text kind ≡ word.now)) }
{
    if word == b"int".as_slice() {
        return Some(Kind::Int);
    }
    let width = word.strip_prefix(b"bytes")?;
    let kind = Kind::Octets(small_number(width)?);
    if kind.is_good() { Some(kind) } else { None }
}

/// The schema of the tables so far and one more after them. They are copied: a schema has at most
/// 16 tables, so the cost of a line is its length and a constant.
fn longer_schema<'a>(
    alloc: Global,
    so_far: &'a Schema,
    name: &'a str,
    kinds: &'a [Kind],
) -> Result<Schema, LineFault>
    ensures { MatchResult result (IsSchemaOf (so_far.now ++ (name.now, kinds.now) ∷ []))
        (OrMemory (IsNoSchemaOf (so_far.now ++ (name.now, kinds.now) ∷ []))) }
{
    let Ok(mut tables) = tables_of(alloc, so_far) else {
        return Err(LineFault::Memory);
    };
    if tables.push((name, kinds)).is_err() {
        return Err(LineFault::Memory);
    }
    schema_of(alloc, tables.as_slice())
}

/// The tables of a schema, lent. Fails only if out of memory.
fn tables_of(alloc: Global, schema: &Schema) -> Result<Vec<(&str, &[Kind])>, AllocError>
    ensures { IfOk result (λ tables. map given tables.items ≡ schema.now) }
{
    let mut tables = Vec::new(alloc);
    for number in 0..schema.len() {
        if let Some(table) = table_at(schema, number) {
            tables.push(table)?;
        }
    }
    Ok(tables)
}

/// The table of that number.
fn table_at(schema: &Schema, number: usize) -> Option<(&str, &[Kind])>
    ensures { option_map given result ≡ slice_get schema.now number }
{
    let name = schema.name(number)?;
    let kinds = schema.kinds(number)?;
    Some((name, kinds))
}

/// The schema of these tables, or why the line that sets the last of them does not read.
fn schema_of(alloc: Global, tables: &[(&str, &[Kind])]) -> Result<Schema, LineFault>
    ensures { MatchResult result (IsSchemaOf (map given tables.now)) (OrMemory (IsNoSchemaOf (map given tables.now))) }
{
    match Schema::new(alloc, tables) {
        Ok(schema) => Ok(schema),
        Err(SchemaFault::Memory) => Err(LineFault::Memory),
        Err(_) => Err(LineFault::Because(Reason::BadSetting)),
    }
}
