ghost use Rattle.std.specs.Prelude.{◌≡◌, ◌<◌};
ghost use Rattle.np_message.specs.Encoding.{depth_byte};

/// The place of a call among those that are open: its level from 1 to 64, and whether a task made it.
/// A reply has its call's.
#[derive(Clone, Copy, Debug, PartialEq, Eq)]
pub struct Depth {
    pub level: u8,
    pub task: bool,
}

impl Depth {
    /// The byte of the wire format: the level, and 128 more with a task's mark.
    pub fn byte(self) -> u8
        requires level { self.level < 128 }
        ensures value { result ≡ depth_byte self }
    {
        if self.task {
            self.level + 128
        } else {
            self.level
        }
    }
}
