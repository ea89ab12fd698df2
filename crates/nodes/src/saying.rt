//! What nodes say on standard error.

use crate::host::Host;
use crate::waiting::Place;
use requests::RequestFault;
use sockets::{JobAnswer, Refusal};
use std::io::Write;
use std::rt::Clock;
use std::sync::{Mutex, Wait};
use std::time::{Duration, Instant};

/// For how long something is not told again, at least, in seconds.
const SILENCE_SECONDS: u64 = 1;

/// Whether an instant was a moment ago, so that what was told then is not told again; also if the clock cannot tell.
pub fn was_just_now<T: Clock>(host: Host<'_, T>, at: &Option<Instant>) -> bool {
    let Some(instant) = at else {
        return false;
    };
    match instant.elapsed(host.rt) {
        Ok(elapsed) => elapsed < Duration::from_secs(SILENCE_SECONDS),
        Err(_) => true,
    }
}

/// Says that the input has ended.
pub fn say_end<T: Wait, E: Write>(host: Host<'_, T>, errors: &Mutex<E>) {
    let mut errors = errors.lock(host.rt);
    let _ = writeln!(&mut *errors, "the input has ended");
}

/// Says which line of the input does not read, and why.
pub fn say_slip<T: Wait, E: Write>(host: Host<'_, T>, fault: &RequestFault, errors: &Mutex<E>) {
    let mut errors = errors.lock(host.rt);
    let _ = writeln!(&mut *errors, "batchdb: standard input: {fault}");
}

/// Says of each refused job the line of the input to which that is due, and why.
pub fn say_refusals<E: Write>(errors: &mut E, answers: &[JobAnswer], places: &[Place]) {
    for (answer, place) in answers.iter().zip(places) {
        if let JobAnswer::Refused(refusal) = answer {
            let line = line_of(place, *refusal);
            let number = place.number;
            let _ = writeln!(
                errors,
                "batchdb: standard input: line {line}: job {number} refused: {refusal}"
            );
        }
    }
}

/// The line of the step that is refused, or that of the job if no step is.
fn line_of(place: &Place, refusal: Refusal) -> u64 {
    let step = match refusal {
        Refusal::Change { step, .. } | Refusal::Condition { step } => step,
        _ => return place.line,
    };
    match place.step_lines.get(step) {
        Some(line) => *line,
        None => place.line,
    }
}
