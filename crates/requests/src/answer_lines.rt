//! The lines that answer jobs.

ghost use Rattle.std.specs.Prelude.{◌≡◌, ◌++◌, OnOk, IfOk};
ghost use Rattle.requests.specs.AnswerLines.{answer_line, numbered_lines};

use rows::append_number;
use sockets::JobAnswer;
use std::alloc::{AllocError, Global};

/// The lines of what jobs are answered, whose numbers count from 0. Fails only if out of memory.
pub fn answer_lines_of(alloc: Global, answers: &[JobAnswer]) -> Result<Vec<u8>, AllocError>
    ensures { IfOk result (λ text. text.items ≡ numbered_lines 0 answers.now) }
{
    let mut text = Vec::new(alloc);
    for (number, answer) in answers.iter().enumerate() {
        push_answer_line(&mut text, number as u64, *answer)?;
    }
    Ok(text)
}

/// Pushes the line of what the job of this number is answered. Fails only if out of memory; a beginning of
/// the line may then be pushed.
pub fn push_answer_line(
    text: &mut Vec<u8>,
    number: u64,
    answer: JobAnswer,
) -> Result<(), AllocError>
    ensures { OnOk result (text.new.items ≡ text.old.items ++ answer_line number answer) }
{
    text.extend_from_slice(b"job ")?;
    append_number(text, number)?;
    match answer {
        JobAnswer::Ticket(commit) => {
            text.extend_from_slice(b" ticket ")?;
            append_number(text, commit)?;
        }
        JobAnswer::Conflict(commit) => {
            text.extend_from_slice(b" conflict ")?;
            append_number(text, commit)?;
        }
        JobAnswer::Refused(_) => text.extend_from_slice(b" refused")?,
    }
    text.push(b'\n')?;
    Ok(())
}
