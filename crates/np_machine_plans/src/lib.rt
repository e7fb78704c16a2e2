//! What pages and plug-ins do, as plans of the machine, and the laws of these plans.
#![tactic(auto)]

mod laws;
mod page;
mod plugin;
mod stream;

pub use laws::{direct_law, names_law, page_defers_law, plugin_delivers_law};
pub use page::{Outstanding, OwedLine, PageControl, PeerState, Stage};
pub use plugin::{PluginControl, PluginStage, QueuedTask};
pub use stream::{PumpedCall, Span, Spans, Stream, StreamCall, StreamPhase, Streams};
