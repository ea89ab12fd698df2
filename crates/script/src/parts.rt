//! Reading a plan, or the line of an event, by itself.

ghost use Rattle.std.specs.Prelude.{IfOk, MatchOption, MatchResult};
ghost use Rattle.queries.specs.declared.plan.Plan.{Plan};
ghost use Rattle.script.specs.EventLines.{IsPlanText, IsEventLine, IsEventFault};

use crate::event::Event;
use crate::event_reading::read_event;
use crate::faults::{LineFault, Reason};
use crate::plan_reading::read_plan_words;
use crate::setup::Setup;
use crate::word_reading::words_of;
use queries::Plan;
use std::alloc::{AllocError, Global};

/// The plan that a text spells, on the tables of a setup; `None` exactly if it spells none, or
/// names a table that is not there. Fails only if out of memory.
pub fn read_plan(alloc: Global, text: &[u8], setup: &Setup) -> Result<Option<Plan>, AllocError>
    ensures { IfOk result (λ read. MatchOption read ((plan : Plan) → IsPlanText setup.now.schema text.now plan → ⊥)
        (IsPlanText setup.now.schema text.now)) }
{
    let words = words_of(alloc, text)?;
    match read_plan_words(alloc, &setup.schema, words.as_slice()) {
        Ok(plan) => Ok(Some(plan)),
        Err(LineFault::Because(_)) => Ok(None),
        Err(LineFault::Memory) => Err(AllocError),
    }
}

/// The event that a line spells, on the tables of a setup, or why it spells none. A text of more
/// than one line is no event. Fails only if out of memory.
pub fn read_event_line(
    alloc: Global,
    line: &[u8],
    setup: &Setup,
) -> Result<Result<Event, Reason>, AllocError>
    ensures { IfOk result (λ read. MatchResult read (IsEventLine setup.now line.now) (IsEventFault setup.now line.now)) }
{
    match read_event(alloc, setup, line) {
        Ok(event) => Ok(Ok(event)),
        Err(LineFault::Because(reason)) => Ok(Err(reason)),
        Err(LineFault::Memory) => Err(AllocError),
    }
}
