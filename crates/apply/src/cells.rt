//! The values of one column, side by side.

ghost use Rattle.std.specs.Prelude.{◌≡◌, ◌+◌, ◌<◌, ◌≤◌, [], length, map, true, Some, slice_get, slice_set, OnOk, IfOk, take, drop, ◌++◌};
ghost use Rattle.std.specs.Prelude.{vec_len, vec_capacity};
ghost use Rattle.std.specs.List.{insert, remove};
ghost use Rattle.rows.specs.Shape.{width_of, is_good};
ghost use Rattle.rows.specs.Values.{value_of, kind_of as kind_of_value};
ghost use Rattle.rows.specs.declared.value.Value.TheVariants.{Octets as OctetsOf};
ghost use Rattle.store.specs.Lent.{octets_in, AreLent};
ghost use Rattle.apply.specs.Columns.{kind_of, values_in, AreCells, HasRoom, Keeps, IsTail, IsFilled};

use byteorder::{BigEndian, ByteOrder};
use rows::{Kind, Octets, Value};
use std::alloc::{AllocError, Global};
use store::Lent;

/// How many rows a column reserves memory for at a time.
const STEP: usize = 128;

/// The values of one column, side by side: numbers of 64 bits, or bytes of one width.
///
/// The identifiers beside it determine how many values there are, as many as `rows` below.
#[derive(Drop)]
pub enum Cells {
    Numbers(Vec<i64>),
    Octets { width: u8, bytes: Vec<u8> },
}

impl Cells {
    /// A column of this kind, without values. Takes no memory.
    pub fn new(alloc: Global, kind: Kind) -> Cells
        requires { is_good kind ≡ true }
        ensures kind { kind_of result ≡ kind }
        ensures cells { AreCells 0 result }
    {
        match kind {
            Kind::Int => Cells::Numbers(Vec::new(alloc)),
            Kind::Octets(width) => Cells::Octets {
                width,
                bytes: Vec::new(alloc),
            },
        }
    }

    /// A column that has this value in each of so many rows. Fails only if out of memory.
    pub fn filled(alloc: Global, rows: usize, value: &Value) -> Result<Cells, AllocError>
        requires { is_good (kind_of_value value.now) ≡ true }
        ensures { IfOk result (IsFilled rows value.now) }
    {
        match value {
            Value::Int(number) => Ok(Cells::Numbers(vec![in alloc; *number; rows]?)),
            Value::Octets(octets) => {
                let value = octets.as_slice();
                Ok(Cells::Octets {
                    width: value.len() as u8,
                    bytes: value.repeat(alloc, rows)?,
                })
            }
        }
    }

    /// A copy of a column that has this value in each of so many rows, for fewer rows or as many.
    /// Fails only if out of memory.
    pub(crate) fn copy_filled(
        &self,
        alloc: Global,
        value: &Value,
        rows: usize,
        fewer: usize,
    ) -> Result<Cells, AllocError>
        requires filled { IsFilled rows value.now self.now }
        requires within { fewer ≤ rows }
        ensures { IfOk result (IsFilled fewer value.now) }
    {
        let _ = value;
        let _ = rows;
        match self {
            Cells::Numbers(numbers) => {
                let (front, _) = numbers.as_slice().split_at(fewer);
                Ok(Cells::Numbers(Vec::from_slice(alloc, front)?))
            }
            Cells::Octets { width, bytes } => {
                let (front, _) = bytes.as_slice().split_at(fewer * *width as usize);
                Ok(Cells::Octets {
                    width: *width,
                    bytes: Vec::from_slice(alloc, front)?,
                })
            }
        }
    }

    /// The kind of its values.
    pub fn kind(&self) -> Kind
        ensures { result ≡ kind_of self.now }
    {
        match self {
            Cells::Numbers(_) => Kind::Int,
            Cells::Octets { width, .. } => Kind::Octets(*width),
        }
    }

    /// How many bytes one of its values takes in a row.
    pub fn width(&self) -> usize
        ensures { result ≡ width_of (kind_of self.now) }
    {
        match self {
            Cells::Numbers(_) => 8,
            Cells::Octets { width, .. } => *width as usize,
        }
    }

    /// Makes room for one more value. Fails only if out of memory. The values do not change.
    pub fn reserve(&mut self) -> Result<(), AllocError>
        ensures keeps { Keeps self.old self.new }
        ensures ok { OnOk result (HasRoom self.new) }
    {
        match self {
            Cells::Numbers(numbers) => {
                if numbers.len() == numbers.capacity() {
                    numbers.reserve_exact(STEP)?;
                }
            }
            Cells::Octets { width, bytes } => {
                if bytes.capacity() - bytes.len() < *width as usize {
                    bytes.reserve_exact(STEP * *width as usize)?;
                }
            }
        }
        Ok(())
    }

    /// Inserts the value at the front of these bytes, if there is room. The values from that row on
    /// move up.
    pub fn insert(&mut self, rows: usize, at: usize, value: &[u8])
        requires cells { AreCells rows self.old }
        requires room { HasRoom self.old }
        requires within { at ≤ rows }
        requires wide { width_of (kind_of self.old) ≤ length value.now }
        ensures cells { AreCells (rows + 1) self.new }
        ensures kind { kind_of self.new ≡ kind_of self.old }
        ensures values { values_in (rows + 1) self.new ≡ insert (values_in rows self.old) at (value_of (kind_of self.old) value.now) }
    {
        match self {
            Cells::Numbers(numbers) => insert_number(numbers, at, BigEndian::read_i64(value)),
            Cells::Octets { width, bytes } => {
                let width = *width as usize;
                insert_bytes(bytes, at * width, &value[..width]);
            }
        }
        let _ = rows;
    }

    /// Removes a row's value. Those after it move down.
    pub fn remove(&mut self, rows: usize, at: usize)
        requires cells { AreCells rows self.old }
        requires within { at < rows }
        ensures cells { (left : _) → left + 1 ≡ rows → AreCells left self.new }
        ensures kind { kind_of self.new ≡ kind_of self.old }
        ensures values { (left : _) → left + 1 ≡ rows → values_in left self.new ≡ remove (values_in rows self.old) at }
    {
        match self {
            Cells::Numbers(numbers) => {
                let _ = numbers.remove(at);
            }
            Cells::Octets { width, bytes } => {
                let width = *width as usize;
                remove_bytes(bytes, at * width, width);
            }
        }
        let _ = rows;
    }

    /// Replaces a row's value by the one at the front of these bytes.
    pub fn set(&mut self, rows: usize, at: usize, value: &[u8])
        requires cells { AreCells rows self.old }
        requires within { at < rows }
        requires wide { width_of (kind_of self.old) ≤ length value.now }
        ensures cells { AreCells rows self.new }
        ensures kind { kind_of self.new ≡ kind_of self.old }
        ensures values { values_in rows self.new ≡ slice_set (values_in rows self.old) at (value_of (kind_of self.old) value.now) }
    {
        match self {
            Cells::Numbers(numbers) => {
                numbers[at] = BigEndian::read_i64(value);
            }
            Cells::Octets { width, bytes } => {
                let width = *width as usize;
                write_bytes(bytes, at * width, &value[..width]);
            }
        }
        let _ = rows;
    }

    /// A row's value.
    pub fn get(&self, rows: usize, at: usize) -> Value
        requires cells { AreCells rows self.now }
        requires within { at < rows }
        ensures { Some result ≡ slice_get (values_in rows self.now) at }
    {
        let _ = rows;
        match self {
            Cells::Numbers(numbers) => Value::Int(numbers[at]),
            Cells::Octets { width, bytes } => {
                let width = *width as usize;
                let from = at * width;
                match Octets::from_slice(&bytes[from..from + width]) {
                    Some(octets) => Value::Octets(octets),
                    None => unreachable!(),
                }
            }
        }
    }

    /// The values of this many rows from one on, lent.
    pub fn values_from(&self, rows: usize, from: usize, count: usize) -> Lent<'_>
        requires cells { AreCells rows self.now }
        requires within { from + count ≤ rows }
        ensures { AreLent (map Some (take count (drop from (values_in rows self.now)))) result }
    {
        let _ = rows;
        match self {
            Cells::Numbers(numbers) => {
                let (_, behind) = numbers.as_slice().split_at(from);
                let (lent, _) = behind.split_at(count);
                Lent::Numbers(lent)
            }
            Cells::Octets { width, bytes } => {
                let width = *width as usize;
                let (_, behind) = bytes.as_slice().split_at(from * width);
                let (lent, _) = behind.split_at(count * width);
                Lent::Octets { width, bytes: lent }
            }
        }
    }

    /// A copy of the values from that row on. Fails only if out of memory.
    pub fn tail(&self, alloc: Global, rows: usize, at: usize) -> Result<Cells, AllocError>
        requires cells { AreCells rows self.now }
        requires within { at ≤ rows }
        ensures { IfOk result (IsTail rows at self.now) }
    {
        let _ = rows;
        match self {
            Cells::Numbers(numbers) => {
                let (_, behind) = numbers.as_slice().split_at(at);
                Ok(Cells::Numbers(Vec::from_slice(alloc, behind)?))
            }
            Cells::Octets { width, bytes } => {
                let (_, behind) = bytes.as_slice().split_at(at * *width as usize);
                Ok(Cells::Octets {
                    width: *width,
                    bytes: Vec::from_slice(alloc, behind)?,
                })
            }
        }
    }

    /// Drops the values from that row on.
    pub fn truncate(&mut self, rows: usize, at: usize)
        requires cells { AreCells rows self.old }
        requires within { at ≤ rows }
        ensures cells { AreCells at self.new }
        ensures kind { kind_of self.new ≡ kind_of self.old }
        ensures values { values_in at self.new ≡ take at (values_in rows self.old) }
    {
        let _ = rows;
        match self {
            Cells::Numbers(numbers) => numbers.truncate(at),
            Cells::Octets { width, bytes } => bytes.truncate(at * *width as usize),
        }
    }
}

/// Inserts a number, if there is room.
fn insert_number(numbers: &mut Vec<i64>, at: usize, number: i64)
    requires within { at ≤ length numbers.old.items }
    requires room { vec_len numbers.old < vec_capacity numbers.old }
    ensures { numbers.new.items ≡ insert numbers.old.items at number }
{
    if numbers.insert(at, number).is_err() {
        unreachable!();
    }
}

/// Inserts bytes, if there is room: they are appended, and then rotated to their place.
fn insert_bytes(bytes: &mut Vec<u8>, at: usize, value: &[u8])
    requires within { at ≤ length bytes.old.items }
    requires room { vec_len bytes.old + length value.now ≤ vec_capacity bytes.old }
    ensures { bytes.new.items ≡ take at bytes.old.items ++ (value.now ++ drop at bytes.old.items) }
{
    if bytes.extend_from_slice(value).is_err() {
        unreachable!();
    }
    bytes[at..].rotate_right(value.len());
}

/// Removes bytes.
fn remove_bytes(bytes: &mut Vec<u8>, at: usize, width: usize)
    requires within { at + width ≤ length bytes.old.items }
    ensures { bytes.new.items ≡ take at bytes.old.items ++ drop (at + width) bytes.old.items }
{
    bytes[at..].rotate_left(width);
    let left = bytes.len() - width;
    bytes.truncate(left);
}

/// Puts bytes in place of others.
fn write_bytes(bytes: &mut Vec<u8>, at: usize, value: &[u8])
    requires within { at + length value.now ≤ length bytes.old.items }
    ensures { bytes.new.items ≡ take at bytes.old.items ++ (value.now ++ drop (at + length value.now) bytes.old.items) }
{
    let end = at + value.len();
    bytes[at..end].copy_from_slice(value);
}
