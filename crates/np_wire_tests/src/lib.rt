//! Tests of messages, their bytes and their listing, with ample memory.
#![tactic(auto)]

#[cfg(test)]
mod calls;
#[cfg(test)]
mod feeds;
#[cfg(test)]
mod kinds;
#[cfg(test)]
mod listings;
#[cfg(test)]
mod messages;
