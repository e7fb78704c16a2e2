/// The phase of an instance. It goes from Absent to Live, then to Destroying or Dead, and never back.
/// (npfunctions.h, NPP_New and NPP_Destroy.)
#[derive(Clone, Copy, Debug, PartialEq, Eq)]
pub enum Phase {
    /// It wasn't begun.
    Absent,
    /// It was begun.
    Live,
    /// It is being destroyed.
    Destroying,
    /// It was destroyed, or it never came to be.
    Dead,
}
