//! Scenarios of `history`, by its public calls: drawn calls against plain numbers, and fronts that
//! threads take of a history while it grows.
#![tactic(auto)]

#[cfg(test)]
mod drawn_calls;
#[cfg(test)]
mod threads;
