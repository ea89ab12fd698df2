//! Queries of the tests.

use queries::{Aggregate, AggregateList, ColumnList, ConditionList, Plan};
use requests::Query;
use std::alloc::{AllocError, Global};

/// So many queries, each of which counts the rows of table 0.
pub fn counting(alloc: Global, count: u64) -> Result<Vec<Query>, AllocError> {
    let mut queries = Vec::new(alloc);
    for line in 0..count {
        queries.push(Query {
            line,
            plan: plan(alloc)?,
        })?;
    }
    Ok(queries)
}

/// Counts the rows of table 0.
fn plan(alloc: Global) -> Result<Plan, AllocError> {
    let mut aggregates = Vec::new(alloc);
    aggregates.push(Aggregate::Count)?;
    Ok(Plan {
        table: 0,
        join: None,
        conditions: ConditionList::from_vec(Vec::new(alloc)),
        groups: ColumnList::from_vec(Vec::new(alloc)),
        aggregates: AggregateList::from_vec(aggregates),
    })
}
