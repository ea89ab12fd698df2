//! Scenarios of `published` over `history`, by their public calls: what seats read while commits are
//! published, with one thread and with several.
#![tactic(auto)]

#[cfg(test)]
mod drawn_calls;
#[cfg(test)]
mod kept_sums;
#[cfg(test)]
mod many_seats;
#[cfg(test)]
mod publishing;
#[cfg(test)]
mod refused_memory;
#[cfg(test)]
mod staying_inside;
#[cfg(test)]
mod telling;
#[cfg(test)]
mod transfers;
