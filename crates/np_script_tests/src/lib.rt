//! Tests of the crates that read and print scripts, with ample memory.
#![tactic(auto)]

#[cfg(test)]
mod actions;
#[cfg(test)]
mod building;
#[cfg(test)]
mod fields;
#[cfg(test)]
mod identifiers;
#[cfg(test)]
mod order;
#[cfg(test)]
mod scripts;
#[cfg(test)]
mod serving;
#[cfg(test)]
mod values;
#[cfg(test)]
mod words;
