/// Where the plug-in stands. (This project's own.)
#[derive(Clone, Copy, Debug, PartialEq, Eq)]
pub enum PluginStage {
    /// It awaits the page's first message, which is Hello.
    Begin,
    /// It serves the page's calls.
    Serving,
    /// It was shut down.
    Ended,
}
