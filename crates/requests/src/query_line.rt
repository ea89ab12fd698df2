//! The lines of batches.

ghost use Rattle.std.specs.Prelude.{◌≡◌, IfOk};
ghost use Rattle.rows.specs.Shape.{shape_of};
ghost use Rattle.queries.specs.Checking.{checked};
ghost use Rattle.requests.specs.QueryLines.{IsQueryLine, allowed};

use crate::faults::LineFault;
use crate::misread::Misread;
use crate::plan_elements::misread_unfit;
use crate::plan_words::misread_plan;
use queries::{Plan, PlanFault};
use rows::Schema;
use script::{Setup, read_plan};
use std::alloc::{AllocError, Global};

/// Reads a line of batches: a plan that fits the tables, or names a column that they do not have, since it
/// may have been added; or reports why it is none. Fails only if out of memory.
pub fn read_query_line(
    alloc: Global,
    setup: &Setup,
    line: &[u8],
) -> Result<Result<Plan, LineFault>, AllocError>
    ensures { IfOk result (IsQueryLine setup.now line.now) }
{
    let Some(plan) = read_plan(alloc, line, setup)? else {
        return Ok(Err(LineFault::NoPlan));
    };
    Ok(allowed(&setup.schema, plan))
}

/// The plan, if it fits the tables but for a column that they do not have.
fn allowed(schema: &Schema, plan: Plan) -> Result<Plan, LineFault>
    ensures { result ≡ allowed (checked (shape_of schema.now) plan) plan }
{
    match plan.check(schema) {
        Ok(()) | Err(PlanFault::NoColumn) => Ok(plan),
        Err(fault) => Err(LineFault::BadPlan(fault)),
    }
}

/// The word at which a line of batches does not read; `Unknown` if it does or if out of memory.
pub fn misread_query_line(alloc: Global, setup: &Setup, line: &[u8]) -> Misread {
    match read_plan(alloc, line, setup) {
        Ok(Some(plan)) => misread_unfit(alloc, &setup.schema, &plan),
        Ok(None) => misread_plan(alloc, &setup.schema, line),
        Err(_) => Misread::Unknown,
    }
}
