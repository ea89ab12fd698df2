//! Scenarios of `shared`, by its public calls: what seats of one line are answered, with one thread and
//! with many.
#![tactic(auto)]

#[cfg(test)]
mod clerks;
#[cfg(test)]
mod cores;
#[cfg(test)]
mod drawn_calls;
#[cfg(test)]
mod gated_journal;
#[cfg(test)]
mod many_clerks;
#[cfg(test)]
mod outcomes;
#[cfg(test)]
mod pushed_rows;
#[cfg(test)]
mod refused_memory;
#[cfg(test)]
mod while_written;
#[cfg(test)]
mod worked_row;
