/// What a store keeps of an instance: its objects are numbered from 1, and no number is used again. (This project's own.)
#[derive(Clone, Copy, Debug, PartialEq, Eq)]
pub struct Numbering {
    /// The serial of the instance's newest object; 0 where it has had none.
    pub last_serial: u32,
    /// Whether the instance was killed, so that its objects may be taken out whatever holds them.
    pub killed: bool,
}
