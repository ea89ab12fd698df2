//! The first fault of a plan.

ghost use Rattle.std.specs.Prelude.{◌≡◌, map, true};
ghost use Rattle.std.specs.Option.{option_map};
ghost use Rattle.rows.specs.Shape.{shape_of};
ghost use Rattle.rows.specs.Tables.{shape_in};
ghost use Rattle.rows.specs.Values.{is_of_kind};
ghost use Rattle.queries.specs.Checking.{first, plan_fault, fault_among, is_too_many, kind_among, join_fault, condition_fault};
ghost use Rattle.queries.specs.Checking.{group_fault, aggregate_fault, number_fault, column_faults};

use crate::aggregate::Aggregate;
use crate::column::Column;
use crate::condition::Condition;
use crate::faults::PlanFault;
use crate::limits::{AGGREGATES_MAX, CONDITIONS_MAX, GROUPS_MAX};
use crate::plan::{Join, Plan};
use rows::{Kind, Schema, Value};
use store::Store;

/// The first fault of a plan for a schema.
pub fn plan_fault(plan: &Plan, schema: &Schema) -> Option<PlanFault>
    ensures { result ≡ plan_fault (shape_of schema.now) plan.now }
{
    let own = schema.kinds(plan.table as usize);
    match plan.join {
        None => fault_among(own, Some(&[]), plan),
        Some(join) => fault_among(own, schema.kinds(join.table as usize), plan),
    }
}

/// The first fault of a plan for the tables of a store.
pub fn plan_fault_on<S: Store>(plan: &Plan, store: &S) -> Option<PlanFault>
    requires { S.is_whole store.now ≡ true }
    ensures { result ≡ plan_fault (shape_in (S.tables store.now)) plan.now }
{
    let own = store.kinds(plan.table);
    match plan.join {
        None => fault_among(own, Some(&[]), plan),
        Some(join) => fault_among(own, store.kinds(join.table), plan),
    }
}

/// The first fault of a plan, given the columns of its table and of the table that it joins, if they
/// are there; a plan that joins none has no columns there.
fn fault_among(own: Option<&[Kind]>, joined: Option<&[Kind]>, plan: &Plan) -> Option<PlanFault>
    ensures { result ≡ fault_among (option_map (λ kinds. kinds.now) own.entry) (option_map (λ kinds. kinds.now) joined.entry) plan.now }
{
    if is_too_many(plan) {
        return Some(PlanFault::TooMany);
    }
    if plan.aggregates.as_slice().is_empty() {
        return Some(PlanFault::NoAggregate);
    }
    let (Some(own), Some(joined)) = (own, joined) else {
        return Some(PlanFault::NoTable);
    };
    column_faults(own, joined, plan)
}

/// Whether a plan has too many conditions, columns to group by or aggregates.
fn is_too_many(plan: &Plan) -> bool
    ensures { result ≡ is_too_many plan.now }
{
    plan.conditions.as_slice().len() > CONDITIONS_MAX
        || plan.groups.as_slice().len() > GROUPS_MAX
        || plan.aggregates.as_slice().len() > AGGREGATES_MAX
}

/// The first fault of a plan's columns, given the columns of its table and of the table that it
/// joins.
fn column_faults(own: &[Kind], joined: &[Kind], plan: &Plan) -> Option<PlanFault>
    ensures { result ≡ column_faults own.now joined.now plan.now }
{
    if let Some(fault) = join_fault(own, plan.join) {
        return Some(fault);
    }
    if let Some(fault) = conditions_fault(own, joined, plan.conditions.as_slice()) {
        return Some(fault);
    }
    if let Some(fault) = groups_fault(own, joined, plan.groups.as_slice()) {
        return Some(fault);
    }
    aggregates_fault(own, joined, plan.aggregates.as_slice())
}

/// The kind of a column; `None` if it is not there.
fn kind_among(own: &[Kind], joined: &[Kind], column: Column) -> Option<Kind>
    ensures { result ≡ kind_among own.now joined.now column }
{
    match column {
        Column::Own(column) => own.get(column as usize).copied(),
        Column::Joined(column) => joined.get(column as usize).copied(),
    }
}

/// The fault of a column that has to be one of numbers.
fn number_fault(kind: Option<Kind>) -> Option<PlanFault>
    ensures { result ≡ number_fault kind }
{
    match kind {
        None => Some(PlanFault::NoColumn),
        Some(Kind::Int) => None,
        Some(Kind::Octets(_)) => Some(PlanFault::WrongKind),
    }
}

/// The fault of a join.
fn join_fault(own: &[Kind], join: Option<Join>) -> Option<PlanFault>
    ensures { result ≡ join_fault own.now join }
{
    match join {
        None => None,
        Some(join) => number_fault(own.get(join.column as usize).copied()),
    }
}

/// The fault of a condition.
fn condition_fault(own: &[Kind], joined: &[Kind], condition: &Condition) -> Option<PlanFault>
    ensures { result ≡ condition_fault own.now joined.now condition.now }
{
    match kind_among(own, joined, condition.column) {
        None => Some(PlanFault::NoColumn),
        Some(kind) => {
            if is_of_kind(&condition.value, kind) {
                None
            } else {
                Some(PlanFault::WrongKind)
            }
        }
    }
}

/// Whether a value is of a kind.
fn is_of_kind(value: &Value, kind: Kind) -> bool
    ensures { result ≡ is_of_kind value.now kind }
{
    match (value, kind) {
        (Value::Int(_), Kind::Int) => true,
        (Value::Octets(bytes), Kind::Octets(width)) => bytes.as_slice().len() == width as usize,
        (Value::Int(_), Kind::Octets(_)) | (Value::Octets(_), Kind::Int) => false,
    }
}

/// The fault of a column to group by.
fn group_fault(own: &[Kind], joined: &[Kind], column: Column) -> Option<PlanFault>
    ensures { result ≡ group_fault own.now joined.now column }
{
    match kind_among(own, joined, column) {
        None => Some(PlanFault::NoColumn),
        Some(_) => None,
    }
}

/// The fault of an aggregate.
fn aggregate_fault(own: &[Kind], joined: &[Kind], aggregate: Aggregate) -> Option<PlanFault>
    ensures { result ≡ aggregate_fault own.now joined.now aggregate }
{
    match aggregate {
        Aggregate::Count => None,
        Aggregate::Sum(column) => number_fault(kind_among(own, joined, column)),
        Aggregate::Min(column) => group_fault(own, joined, column),
        Aggregate::Max(column) => group_fault(own, joined, column),
    }
}

/// The first fault of conditions.
fn conditions_fault(own: &[Kind], joined: &[Kind], conditions: &[Condition]) -> Option<PlanFault>
    ensures { result ≡ first (map (condition_fault own.now joined.now) conditions.now) }
{
    for condition in conditions {
        if let Some(fault) = condition_fault(own, joined, condition) {
            return Some(fault);
        }
    }
    None
}

/// The first fault of columns to group by.
fn groups_fault(own: &[Kind], joined: &[Kind], columns: &[Column]) -> Option<PlanFault>
    ensures { result ≡ first (map (group_fault own.now joined.now) columns.now) }
{
    for column in columns {
        if let Some(fault) = group_fault(own, joined, *column) {
            return Some(fault);
        }
    }
    None
}

/// The first fault of aggregates.
fn aggregates_fault(own: &[Kind], joined: &[Kind], aggregates: &[Aggregate]) -> Option<PlanFault>
    ensures { result ≡ first (map (aggregate_fault own.now joined.now) aggregates.now) }
{
    for aggregate in aggregates {
        if let Some(fault) = aggregate_fault(own, joined, *aggregate) {
            return Some(fault);
        }
    }
    None
}
