//! What one side knows of the references between the sides: those to its own objects, and its proxies of the other side's.
#![tactic(auto)]

mod error;
mod export;
mod exports;
mod import;
mod imports;
mod incoming;
mod laws;
mod named;
mod pending;
mod proxies;

pub use error::ProxyError;
pub use export::Export;
pub use exports::Exports;
pub use import::Import;
pub use imports::Imports;
pub use incoming::Incoming;
pub use laws::{counted_names_stay, exports_are_kept, exports_count, imports_count, releases_rise};
pub use np_proxy_release::{Release, Releases};
