//! Plans that are alike: those that read the same rows, with the same partners, and group them by
//! the same columns. A scan numbers the groups of a block's rows once for all that are alike.

ghost use Rattle.std.specs.Prelude.{◌≡◌, ◌<◌, true, length, IfOk, slice_index_or};
ghost use Rattle.plans.specs.Inner.Scans.{AreAlike, AreClasses};

use queries::{Column, Join, Plan};
use std::alloc::{AllocError, Global};

/// For each plan the number of the first one that is alike. Fails only if out of memory.
pub fn classes_of(alloc: Global, plans: &[Plan]) -> Result<Vec<usize>, AllocError>
    ensures { IfOk result (λ classes. AreClasses plans.now classes.items) }
{
    let mut classes = Vec::with_capacity(alloc, plans.len())?;
    for plan in 0..plans.len() {
        classes.push(class_of(plans, plan))?;
    }
    Ok(classes)
}

/// The number of the first plan that is alike to a plan; that is itself if no other is.
fn class_of(plans: &[Plan], plan: usize) -> usize
    requires { plan < length plans.now }
    ensures within { result < length plans.now }
    ensures alike { (d : _) → AreAlike (slice_index_or plans.now result d) (slice_index_or plans.now plan d) }
{
    for other in 0..plan {
        if are_alike(&plans[other], &plans[plan]) {
            return other;
        }
    }
    plan
}

/// Whether two plans are alike.
pub fn are_alike(plan: &Plan, other: &Plan) -> bool
    ensures { result ≡ true → AreAlike plan.now other.now }
{
    plan.table == other.table
        && are_same_joins(plan.join, other.join)
        && are_same_columns(plan.groups.as_slice(), other.groups.as_slice())
}

fn are_same_joins(join: Option<Join>, other: Option<Join>) -> bool
    ensures { result ≡ true → join ≡ other }
{
    match (join, other) {
        (None, None) => true,
        (Some(join), Some(other)) => join.column == other.column && join.table == other.table,
        _ => false,
    }
}

fn are_same_columns(columns: &[Column], others: &[Column]) -> bool
    ensures { result ≡ true → columns.now ≡ others.now }
{
    if columns.len() != others.len() {
        return false;
    }
    for index in 0..columns.len() {
        if !is_same_column(columns[index], others[index]) {
            return false;
        }
    }
    true
}

/// Whether two columns are equal.
pub fn is_same_column(column: Column, other: Column) -> bool
    ensures { result ≡ true → column ≡ other }
{
    match (column, other) {
        (Column::Own(column), Column::Own(other)) => column == other,
        (Column::Joined(column), Column::Joined(other)) => column == other,
        _ => false,
    }
}
