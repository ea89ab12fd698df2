//! The world: the cores of the primary and of its replicas, and every datagram that was ever sent,
//! stepped by events.
//!
//! A `World` has one step, which uses only the public calls of the cores; its contract specifies
//! what each event may answer and leave. `run` steps a new world through a list of events, and its
//! contract is the main theorem; `run_on_journal` begins on the bytes of a journal, and `run_script`
//! takes the events of a script. Lost, repeated and late datagrams, and whatever else may go wrong,
//! are events.
//!
//! `specs/` defines what may happen: the world as its users see it (`Steps.antt`), what a crash of
//! the primary leaves (`Stops.antt`) and which outputs are allowed (`Allowed.antt`), the cores
//! and the world that they make (`Cores.antt`, `Standing.antt`), what is acknowledged
//! (`Acknowledged.antt`), what a step and a run are (`Theorem.antt`), what a script's run reads and
//! prints (`Scripts.antt`), and the promise to users on one page (`Database.antt`). `specs/Inner`
//! only helps proofs.
//!
//! It uses `primary` and `dispatcher`, which know nothing of each other, `journal` for what a
//! primary's journal keeps, `mvcc` for transactions, `plans` for queries, and `script` for events
//! and outputs. If a call fails for lack of memory, its value is unchanged unless the call says
//! otherwise.
#![tactic(auto)]

mod boot_list;
mod cores;
mod faults;
mod laws;
mod naming;
mod primary_node;
mod replica_steps;
mod restarting;
mod running_primary;
mod script_running;
mod sending;
mod simulator;
mod stepping;
mod stopping;
mod theorem;
mod transacting;
mod worked;
mod world;

pub use faults::RunFault;
pub use script::{
    Event, Node, Output, Reason, ScriptFault, Sent, SentList, Setup, read_plan, read_script,
    read_settings, read_value,
};
pub use script_running::{Echo, run_script};
pub use simulator::{run, run_on, run_on_journal};
pub use theorem::{allowed_runs_are_exact, runs_are_of_database, stops_keep_what_stands};
pub use worked::worked_scripts;
pub use world::World;
