//! The environment as traits, with forms in memory, adapters to the platform, and whole transfers over them.
#![tactic(auto)]

mod bytes;
mod call_plan;
mod child_peer;
mod error;
mod faults;
mod file_call;
mod file_memory;
mod file_sink;
mod host_files;
mod mem_files;
mod mem_sink;
mod peer_memory;
mod reading;
mod scripted_peer;
mod sink_memory;
mod std_peer;
mod stdout_sink;
mod sure_files;
mod sure_peer;
mod sure_sink;
mod traits;
mod words;
mod writing;

pub use child_peer::ChildPeer;
pub use error::PortError;
pub use file_call::FileCall;
pub use file_sink::FileSink;
pub use host_files::HostFiles;
pub use mem_files::MemFiles;
pub use mem_sink::MemSink;
pub use reading::{SCRIPT_LIMIT, read_script};
pub use scripted_peer::ScriptedPeer;
pub use std_peer::StdPeer;
pub use stdout_sink::StdoutSink;
pub use sure_files::SureFiles;
pub use sure_peer::SurePeer;
pub use sure_sink::SureSink;
pub use traits::{Files, Peer, Sink};
pub use writing::{print_all, send_all};
