//! Scenarios of `service`, by its public calls: connections over sockets in memory, which give and take bytes in
//! pieces, would wait or fail at each of their calls in turn, and are too slow or ask for too much; and connections
//! of the loopback that are handed to threads, or answered in rounds that take long.
#![tactic(auto)]

#[cfg(test)]
mod cuts;
#[cfg(test)]
mod denials;
#[cfg(test)]
mod doors;
#[cfg(test)]
mod driving;
#[cfg(test)]
mod echo;
#[cfg(test)]
mod failures;
#[cfg(test)]
mod houses;
#[cfg(test)]
mod memory_socket;
#[cfg(test)]
mod settling;
#[cfg(test)]
mod sizes;
#[cfg(test)]
mod visits;
#[cfg(test)]
mod waits;
