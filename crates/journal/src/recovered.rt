use crate::form::Form;
use crate::header::header_bytes;
use crate::text::MARK;
use rows::{Commit, Schema};
use std::alloc::{AllocError, Global};

/// What recovery finds in the bytes of a journal.
#[derive(Drop)]
pub struct Recovered {
    /// The kept commits in order; the first has number 1.
    pub commits: Vec<Commit>,
    /// The form of their text; `New` if the bytes end within the header.
    pub form: Form,
    /// How many of the bytes are the text of these commits; 0 if they end within the header.
    /// Whatever follows is torn, and has to be truncated before anything is appended.
    pub bytes_kept: u64,
}

impl Recovered {
    ghost use Rattle.std.specs.Prelude.{◌≡◌, IfOk};
    ghost use Rattle.rows.specs.Shape.{shape_of};
    ghost use Rattle.journal.specs.Text.{missing_text};

    /// What a start has to append to the kept bytes so that version 2 may go on: the header where
    /// nothing is kept; behind a text of version 1 the mark; otherwise nothing. Fails only if out
    /// of memory.
    pub fn missing_text(
        &self,
        alloc: Global,
        schema: &Schema,
        workers: u8,
    ) -> Result<Vec<u8>, AllocError>
        ensures { IfOk result (λ bytes. bytes.items ≡ missing_text workers (shape_of schema.now) self.now.form self.now.bytes_kept) }
    {
        if self.bytes_kept == 0 {
            return header_bytes(alloc, workers, schema);
        }
        match self.form {
            Form::Old => Vec::from_slice(alloc, &MARK),
            Form::New | Form::Marked(_) => Ok(Vec::new(alloc)),
        }
    }
}
