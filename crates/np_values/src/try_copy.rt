ghost use Rattle.std.specs.Prelude.{◌≡◌, IfOk};

use crate::NoMemory;
use std::alloc::Global;

/// A copy that may fail: for items of lists, whose copies allocate.
pub trait TryCopy {
    /// An equal value of its own.
    fn try_copy(&self, alloc: Global) -> Result<Self, NoMemory>
        ensures value { IfOk result (λ copy. copy ≡ self.now) };
}
