//! Worked runs of pages and plug-ins, as theorems: what the machine's definitions compute is what a journal or a peer shows.
#![tactic(auto)]
