//! Scenarios of `sockets`, by its public calls: ports that fail at each call in turn, datagrams that no node
//! sends, what a drain takes, what single turns come to, and bases that are taken meanwhile.
#![tactic(auto)]

#[cfg(test)]
mod bases;
#[cfg(test)]
mod cores;
#[cfg(test)]
mod drains;
#[cfg(test)]
mod failing_ports;
#[cfg(test)]
mod nodes;
#[cfg(test)]
mod odd_datagrams;
#[cfg(test)]
mod turns;
