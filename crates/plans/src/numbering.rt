//! The numbers of groups: each group that was met has one.

ghost use Rattle.std.specs.Prelude.{◌≡◌, ◌≤◌, ◌+◌, length, [], ◌∷◌, Some, IsNone, IfSome, IfOk, OnOk, slice_get};
ghost use Rattle.rows.specs.declared.value.Value.TheVariants.{Int};
ghost use Rattle.plans.specs.Inner.Blocks.{IsNumbering, IsOther, Extends, StaysIfKnown};

use crate::group_key::GroupKey;
use rows::Value;
use std::alloc::{AllocError, Global};
use std::collections::BTreeMap;

/// The groups that were met, each with a number: its place among the keys, which stand in order of
/// arrival.
#[derive(Drop)]
pub struct Numbering {
    keys: Vec<GroupKey>,
    /// The numbers of the groups of one value that is a number.
    singles: BTreeMap<i64, u32>,
    /// The numbers of all other groups.
    others: BTreeMap<GroupKey, u32>,
}

impl Numbering {
    /// No groups. Takes no memory.
    pub fn new(alloc: Global) -> Numbering
        ensures numbering { IsNumbering result }
        ensures none { result.keys.items ≡ [] }
    {
        Numbering {
            keys: Vec::new(alloc),
            singles: BTreeMap::new(alloc),
            others: BTreeMap::new(alloc),
        }
    }

    /// The keys, lent: a group's number is the place of its values.
    pub fn keys(&self) -> &[GroupKey]
        ensures { result.now ≡ self.now.keys.items }
    {
        self.keys.as_slice()
    }

    /// The number of the group of one number. Fails only if out of memory, or of numbers; nothing is
    /// then known of the numbering.
    pub fn number_single(&mut self, alloc: Global, number: i64) -> Result<u32, AllocError>
        requires numbering { IsNumbering self.old }
        ensures numbering { OnOk result (IsNumbering self.new) }
        ensures number { IfOk result (λ place. slice_get self.new.keys.items place ≡ Some (Int number ∷ [])) }
        ensures extends { OnOk result (Extends self.old.keys.items self.new.keys.items) }
        ensures few { OnOk result (length self.new.keys.items ≤ length self.old.keys.items + 1) }
        ensures stays { OnOk result (StaysIfKnown (Int number ∷ []) self.old.keys.items self.new.keys.items) }
    {
        if let Some(place) = self.singles.get(&number) {
            return Ok(*place);
        }
        let place = place_after(self.keys.len())?;
        let mut values = Vec::with_capacity(alloc, 1)?;
        values.push(Value::Int(number))?;
        self.keys.push(GroupKey::from_vec(values))?;
        self.singles.insert(number, place)?;
        Ok(place)
    }

    /// The number of a group. Fails only if out of memory, or of numbers; nothing is then known of
    /// the numbering.
    pub fn number(&mut self, alloc: Global, key: GroupKey) -> Result<u32, AllocError>
        requires numbering { IsNumbering self.old }
        ensures numbering { OnOk result (IsNumbering self.new) }
        ensures number { IfOk result (λ place. slice_get self.new.keys.items place ≡ Some key) }
        ensures extends { OnOk result (Extends self.old.keys.items self.new.keys.items) }
        ensures few { OnOk result (length self.new.keys.items ≤ length self.old.keys.items + 1) }
        ensures stays { OnOk result (StaysIfKnown key self.old.keys.items self.new.keys.items) }
    {
        match single_of(key.as_slice()) {
            Some(number) => self.number_single(alloc, number),
            None => self.number_other(alloc, key),
        }
    }

    /// The same of a key that is lent: it is copied if its group is a new one.
    pub fn number_of(&mut self, alloc: Global, key: &GroupKey) -> Result<u32, AllocError>
        requires numbering { IsNumbering self.old }
        ensures numbering { OnOk result (IsNumbering self.new) }
        ensures number { IfOk result (λ place. slice_get self.new.keys.items place ≡ Some key.now) }
        ensures extends { OnOk result (Extends self.old.keys.items self.new.keys.items) }
        ensures few { OnOk result (length self.new.keys.items ≤ length self.old.keys.items + 1) }
        ensures stays { OnOk result (StaysIfKnown key.now self.old.keys.items self.new.keys.items) }
    {
        match single_of(key.as_slice()) {
            Some(number) => self.number_single(alloc, number),
            None => self.number_lent(alloc, key),
        }
    }

    /// The number of a group of other than one number, whose key is lent.
    fn number_lent(&mut self, alloc: Global, key: &GroupKey) -> Result<u32, AllocError>
        requires numbering { IsNumbering self.old }
        requires other { IsOther key.now }
        ensures numbering { OnOk result (IsNumbering self.new) }
        ensures number { IfOk result (λ place. slice_get self.new.keys.items place ≡ Some key.now) }
        ensures extends { OnOk result (Extends self.old.keys.items self.new.keys.items) }
        ensures few { OnOk result (length self.new.keys.items ≤ length self.old.keys.items + 1) }
        ensures stays { OnOk result (StaysIfKnown key.now self.old.keys.items self.new.keys.items) }
    {
        if let Some(place) = self.others.get(key) {
            return Ok(*place);
        }
        let copy = GroupKey::from_vec(Vec::from_slice(alloc, key.as_slice())?);
        self.number_other(alloc, copy)
    }

    /// The number of a group of other than one number.
    fn number_other(&mut self, alloc: Global, key: GroupKey) -> Result<u32, AllocError>
        requires numbering { IsNumbering self.old }
        requires other { IsOther key }
        ensures numbering { OnOk result (IsNumbering self.new) }
        ensures number { IfOk result (λ place. slice_get self.new.keys.items place ≡ Some key) }
        ensures extends { OnOk result (Extends self.old.keys.items self.new.keys.items) }
        ensures few { OnOk result (length self.new.keys.items ≤ length self.old.keys.items + 1) }
        ensures stays { OnOk result (StaysIfKnown key self.old.keys.items self.new.keys.items) }
    {
        if let Some(place) = self.others.get(&key) {
            return Ok(*place);
        }
        let place = place_after(self.keys.len())?;
        let copy = Vec::from_slice(alloc, key.as_slice())?;
        self.keys.push(GroupKey::from_vec(copy))?;
        self.others.insert(key, place)?;
        Ok(place)
    }
}

/// The number that is all there is of a group; `None` if the group is another one.
fn single_of(values: &[Value]) -> Option<i64>
    ensures single { IfSome result (λ number. values.now ≡ Int number ∷ []) }
    ensures other { IsNone result → IsOther values.now }
{
    let Some((first, rest)) = values.split_first() else {
        return None;
    };
    match first {
        Value::Int(number) => { if rest.is_empty() { Some(*number) } else { None } }
        Value::Octets(_) => None,
    }
}

/// The number of a key behind so many. Fails if there are too many for a number.
fn place_after(keys: usize) -> Result<u32, AllocError>
    ensures { IfOk result (λ place. place ≡ keys) }
{
    match u32::try_from(keys) {
        Ok(place) => Ok(place),
        Err(_) => Err(AllocError),
    }
}
