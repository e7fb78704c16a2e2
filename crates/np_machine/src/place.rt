use np_idents::IdKey;
use np_values::Name;

/// Where a reference can be, outside values in flight. (This project's own.)
#[derive(Drop)]
pub enum Place {
    /// A register of the newest frame.
    Register(u8),
    /// A register of the page's commands.
    PageRegister(u8),
    /// An instance, and one of its slots. On the page slot 8 holds the window object.
    Slot(u8, u8),
    /// A property of an object of this side.
    PropertyOf(Name, IdKey),
    /// The object whose method the newest frame runs. It can be read alone.
    This,
}
