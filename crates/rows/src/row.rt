//! A row's two forms: the values of its columns, and their bytes.

ghost use Rattle.std.specs.Prelude.{◌≡◌, ◌≤◌, ◌++◌, ◌∷◌, [], length, true, IfOk, slice_set};
ghost use Rattle.std.specs.List.{list_all};
ghost use Rattle.rows.specs.Shape.{row_width, width_of, is_good};
ghost use Rattle.rows.specs.Values.{value_of, values_of, bytes_of};
ghost use Rattle.rows.specs.Tables.{patched_row};

use crate::byte_list::ByteList;
use crate::kind::Kind;
use crate::octets::Octets;
use crate::schema::column_at;
use crate::value::Value;
use byteorder::{BigEndian, ByteOrder};
use std::alloc::{AllocError, Global};
use std::marker::Model;

/// The values of a row's columns, in order.
#[derive(Clone, Drop)]
pub struct Row {
    items: Vec<Value>,
}

impl Model for Row {
    ghost use Rattle.std.specs.Prelude.{List};
    ghost use Rattle.rows.specs.declared.value.Value.{Value as ColumnValue};

    ghost Value = { List ColumnValue };

    ghost view = { λ r. r.items.items };
}

impl Row {
    /// The row of these values. Takes no memory.
    pub fn from_vec(items: Vec<Value>) -> Row
        ensures { result ≡ items.items }
    {
        Row { items }
    }

    /// The values, lent.
    pub fn as_slice(&self) -> &[Value]
        ensures { result.now ≡ self.now }
    {
        self.items.as_slice()
    }

    /// These values, with one more behind them. Fails only if out of memory.
    pub fn with(&self, alloc: Global, value: Value) -> Result<Row, AllocError>
        ensures { IfOk result (λ row. row ≡ self.now ++ value ∷ []) }
    {
        let mut items = Vec::with_capacity(alloc, self.items.len() + 1)?;
        items.extend_from_slice(self.items.as_slice())?;
        items.push(value)?;
        Ok(Row { items })
    }

    /// Puts another value into a column. If there is no such column, nothing changes. Takes no
    /// memory.
    pub fn set(&mut self, column: usize, value: Value)
        ensures { self.new ≡ slice_set self.old column value }
    {
        if let Some(was) = self.items.get_mut(column) {
            *was = value;
        }
    }

    /// Puts bytes in place of one column's, in a table with columns of these kinds. If they are not
    /// exactly one column's bytes, nothing changes. Takes no memory.
    pub fn patch(&mut self, kinds: &[Kind], offset: u16, bytes: &[u8])
        requires { list_all is_good kinds.now ≡ true }
        ensures { self.new ≡ patched_row kinds.now offset bytes.now self.old }
    {
        if let Some((column, kind)) = column_at(kinds, offset as usize, bytes.len()) {
            self.set(column, first_value(kind, bytes));
        }
    }
}

/// The bytes of a row with these values: each column's bytes in order, an `Int` as eight bytes,
/// big-endian, two's complement, `Octets` as they are. Fails only if out of memory.
pub fn row_bytes(alloc: Global, values: &[Value]) -> Result<ByteList, AllocError>
    ensures { IfOk result (λ bytes. bytes ≡ bytes_of values.now) }
{
    let mut bytes = Vec::new(alloc);
    for value in values {
        match *value {
            Value::Int(number) => bytes.extend_from_slice(&number.to_be_bytes())?,
            Value::Octets(octets) => bytes.extend_from_slice(octets.as_slice())?,
        }
    }
    Ok(ByteList::from_vec(bytes))
}

/// The values of a row with columns of these kinds, from the row's bytes. Fails only if out of
/// memory.
pub fn row_values(alloc: Global, kinds: &[Kind], bytes: &[u8]) -> Result<Row, AllocError>
    requires good { list_all is_good kinds.now ≡ true }
    requires wide { row_width kinds.now ≤ length bytes.now }
    ensures { IfOk result (λ row. row ≡ values_of kinds.now bytes.now) }
{
    let mut items = Vec::new(alloc);
    let mut rest = bytes;
    for kind in kinds {
        items.push(first_value(*kind, rest))?;
        let (_, after) = rest.split_at(kind.width());
        rest = after;
    }
    Ok(Row { items })
}

/// The value of a column of this kind at the front of the bytes. Takes no memory.
pub fn first_value(kind: Kind, bytes: &[u8]) -> Value
    requires good { is_good kind ≡ true }
    requires wide { width_of kind ≤ length bytes.now }
    ensures { result ≡ value_of kind bytes.now }
{
    match kind {
        Kind::Int => Value::Int(BigEndian::read_i64(bytes)),
        Kind::Octets(width) => match Octets::from_slice(&bytes[..width as usize]) {
            Some(octets) => Value::Octets(octets),
            None => unreachable!(),
        },
    }
}
