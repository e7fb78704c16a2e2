use crate::IdKey;

/// What is asked of an object. (npruntime.h, NPClass.)
#[derive(Drop)]
pub enum Op {
    Invoke(IdKey),
    /// invokeDefault.
    Default,
    Construct,
    /// getProperty.
    Get(IdKey),
    /// setProperty.
    Put(IdKey),
    /// removeProperty.
    Remove(IdKey),
    HasMethod(IdKey),
    HasProperty(IdKey),
    Enumerate,
}
