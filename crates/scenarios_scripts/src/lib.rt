//! Scenarios of `world`: scripts, from their text to what they print.
#![tactic(auto)]

#[cfg(test)]
mod long_scripts;
#[cfg(test)]
mod old_journals;
#[cfg(test)]
mod partitions;
#[cfg(test)]
mod script_ends;
#[cfg(test)]
mod script_long_texts;
#[cfg(test)]
mod script_memory;
#[cfg(test)]
mod script_writers;
#[cfg(test)]
mod scripts;
#[cfg(test)]
mod value_words;
