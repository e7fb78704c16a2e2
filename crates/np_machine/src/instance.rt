use np_life::Phase;
use np_values::Values;

/// An instance of the plug-in, as one side knows it. (npapi.h, NPP.)
#[derive(Drop)]
pub struct Instance {
    /// From 1, in the order in which instances were begun.
    pub number: u8,
    /// The phase on this side. The other side has its own.
    pub phase: Phase,
    /// The serial of the object that this side made last for the instance, or 0.
    pub serial: u32,
    /// Slots 0 to 7 are the script's. On the page slot 8 holds the window object.
    pub slots: Values,
}
