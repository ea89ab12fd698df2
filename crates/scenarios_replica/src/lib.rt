//! Scenarios of `dispatcher`, by its public calls: frames, images, batches, hostile bytes, the text of the tables.
#![tactic(auto)]

#[cfg(test)]
mod batches;
#[cfg(test)]
mod dumps;
#[cfg(test)]
mod frames;
#[cfg(test)]
mod hostile_bytes;
#[cfg(test)]
mod image_ends;
#[cfg(test)]
mod images;
#[cfg(test)]
mod opened_plans;
#[cfg(test)]
mod parts;
#[cfg(test)]
mod replica;
#[cfg(test)]
mod two_workers;
