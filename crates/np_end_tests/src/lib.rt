//! Tests of the environment, and worked runs of both ends over it, with ample memory.
#![tactic(auto)]

#[cfg(test)]
mod children;
#[cfg(test)]
mod end_lines;
#[cfg(test)]
mod environment;
#[cfg(test)]
mod files;
#[cfg(test)]
mod forms_in_memory;
#[cfg(test)]
mod host_runs;
#[cfg(test)]
mod output;
#[cfg(test)]
mod plug_runs;
#[cfg(test)]
mod refusals;
#[cfg(test)]
mod transfers;
#[cfg(test)]
mod wire_text;
