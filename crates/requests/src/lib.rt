//! Jobs and batches of queries, read line by line, and the lines that answer jobs.
//!
//! `Lines` cuts the bytes of any reader into lines. `read_job_line` reads one line of jobs.
//! `JobReader` makes whole jobs of such lines, with looks and bases between them; `BatchReader` makes
//! batches of queries. Both say on which line each thing began, and on which line a fault stands and why: the
//! texts of a `LineFault` are those that docs/FORMATS.md lists. `push_answer_line` makes the line of what
//! a job is answered, and `answer_lines_of` those of several. The crate knows nothing of the program
//! that prints them.
//!
//! A line that does not read is looked at once more, for the word at which it does not: its `Misread`. This
//! look decides nothing: if it finds no such word, or memory is refused for it, the fault has none.
//! `misread_settings` is the same for a schema file, and `shown` shows a word in any line of a fault.
//!
//! A reader continues after a fault. A fault in a job skips the rest of this job, one in a batch the
//! rest of that batch, and any other the line alone. A line whose first word is `job` always begins the
//! next job, so each such line is one job, and each job that is lost has one fault.
//!
//! Promised: the lines are those of the reader's bytes, in order, each once and whole; a line has at most
//! 65,536 bytes and no end of a line in it, and only a longer one is skipped; the input has ended only if
//! its reader has nothing left. A line of a job is the line of a script without the number of the
//! transaction, and says the same. A job has conditions only where the dialect has them, and a worker that
//! is there; a batch has 1 to 64 queries. How lines come together as jobs and batches is tested.
//!
//! It uses `script` for the words of a line, and `bytes` for what was read. `specs/Lines.antt` defines
//! what a call takes of the input, `JobLines.antt` and `QueryLines.antt` what a line says, and
//! `AnswerLines.antt` the line of an answer. If a call fails
//! for lack of memory, its value is unchanged unless the call says otherwise.
#![tactic(auto)]

mod answer_lines;
mod batch_assembly;
mod batch_reader;
mod dialect;
mod faults;
mod job_assembly;
mod job_line;
mod job_reader;
mod job_words;
mod line_words;
mod lines;
mod misread;
mod plan_elements;
mod plan_words;
mod query_line;
mod request;
mod setting_words;
mod shown_words;
mod word;
mod word_fault;

pub use answer_lines::{answer_lines_of, push_answer_line};
pub use batch_assembly::{BATCH_QUERIES_MAX, Query};
pub use batch_reader::{BatchReader, Batched};
pub use dialect::Dialect;
pub use faults::{LineFault, RequestFault, Skipped};
pub use job_line::{JobLine, read_job_line};
pub use job_reader::JobReader;
pub use lines::{Input, InputFault, LINE_LEN_MAX, Lines};
pub use misread::Misread;
pub use plan_elements::{PlanElement, elements_of};
pub use query_line::read_query_line;
pub use request::{Request, Requested};
pub use setting_words::misread_settings;
pub use shown_words::shown;
pub use word_fault::WordFault;
