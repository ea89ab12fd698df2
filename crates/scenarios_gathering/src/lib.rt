//! Scenarios of `gathering`, by its public calls: clients whose requests are answered as one batch, and requests that are not
//! answered.
#![tactic(auto)]

#[cfg(test)]
mod clients;
#[cfg(test)]
mod counting;
#[cfg(test)]
mod ends;
