//! Plans that tell who puts them, and bear a number.

use queries::{AggregateList, ColumnList, ConditionList, Join, Plan};
use std::alloc::Global;

/// The plan of a putter with this number: its table is the putter, and the column of its join the
/// number. Takes no memory.
pub fn numbered(alloc: Global, putter: u8, number: u8) -> Plan {
    Plan {
        table: putter,
        join: Some(Join {
            column: number,
            table: 0,
        }),
        conditions: ConditionList::from_vec(Vec::new(alloc)),
        groups: ColumnList::from_vec(Vec::new(alloc)),
        aggregates: AggregateList::from_vec(Vec::new(alloc)),
    }
}

/// The number of a plan.
pub fn number_of(plan: &Plan) -> u8 {
    match plan.join {
        Some(join) => join.column,
        None => u8::MAX,
    }
}

/// Whether plans have the numbers from this one on.
pub fn are_numbered(plans: &[Plan], first: u8) -> bool {
    let mut next = first;
    for plan in plans {
        if number_of(plan) != next {
            return false;
        }
        next = next.wrapping_add(1);
    }
    true
}

/// Whether the numbers of a putter's plans rise.
pub fn rise(plans: &[Plan], putter: u8) -> bool {
    let mut last: Option<u8> = None;
    for plan in plans {
        if plan.table == putter {
            if matches!(last, Some(number) if number >= number_of(plan)) {
                return false;
            }
            last = Some(number_of(plan));
        }
    }
    true
}

/// How many of the plans are a putter's with this number.
pub fn times(plans: &[Plan], putter: u8, number: u8) -> usize {
    plans
        .iter()
        .filter(|plan| plan.table == putter && number_of(plan) == number)
        .count()
}
