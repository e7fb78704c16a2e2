//! Which line may come next in a script: where its reader stands, how much there is, and what is declared already.
#![tactic(auto)]

mod count;
mod error;
mod key;
mod order;
mod step;

pub use error::OrderError;
pub use order::Order;
