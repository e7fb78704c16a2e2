//! Tests of the tables of the runtimes, with ample memory.
#![tactic(auto)]

#[cfg(test)]
mod classes;
#[cfg(test)]
mod instances;
#[cfg(test)]
mod journals;
#[cfg(test)]
mod objects;
#[cfg(test)]
mod references;
