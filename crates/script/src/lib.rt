//! Scripts of the simulator: settings, events and outputs as values, and their text.
//!
//! `read_script` reads the settings and the events of a script, or reports the first line that does
//! not read, and why; `read_settings` reads a text that has settings alone. `write_text_of` writes
//! the text of what events answer, and `write_echoed_text_of` puts the line of each event before
//! it; both write in pieces. `read_event_line` reads the line of one event; `read_plan` and
//! `read_value` read parts of lines.
//!
//! `specs/` defines how events and outputs are written (`EventText.antt`, `OutputText.antt`), what
//! a writer took (`Writing.antt`), which events may be asked for (`Events.antt`), which bytes are
//! text and which words are names (`Text.antt`), which values have words (`Values.antt`), how
//! tables are named and plans written (`Tables.antt`, `PlanText.antt`), which lines are events and
//! settings (`EventLines.antt`, `Settings.antt`), and which texts are scripts, or why not
//! (`Scripts.antt`, `Faults.antt`). `Inner` only helps proofs.
//!
//! It uses `rows` for schemas, values and their text, `plans` for plans, and `itoa` to read
//! numbers, each of which has one spelling. If a call fails for lack of memory, its value is
//! unchanged unless the call says otherwise.
#![tactic(auto)]

mod event;
mod event_reading;
mod event_text;
mod faults;
pub mod laws;
mod line_forms;
mod lines;
mod node_reading;
mod output;
mod output_text;
mod parts;
mod plan_reading;
mod plan_writing;
mod reading;
mod sent;
mod settings;
mod setup;
mod table_names;
mod transaction_reading;
mod value_reading;
mod word_reading;
mod writing;

pub use event::{Event, Node};
pub use faults::{Reason, ScriptFault, WriteFault};
pub use output::Output;
pub use parts::{read_event_line, read_plan};
pub use reading::{read_script, read_settings};
pub use sent::{Sent, SentList};
pub use setup::Setup;
pub use value_reading::{read_value, words_determine_values};
pub use writing::{write_echoed_text_of, write_text_of};
