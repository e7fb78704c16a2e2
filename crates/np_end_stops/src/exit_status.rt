//! The exit statuses of both programs. (This project's own; 1 is the shell's, and no run ends with it.)

/// The run came to its end.
pub const DONE: u8 = 0;

/// The command line isn't of any form that the program has.
pub const USAGE: u8 = 2;

/// The script isn't valid, or has a line that the program doesn't support yet.
pub const BAD_SCRIPT: u8 = 3;

/// A file couldn't be read.
pub const FILE_FAILED: u8 = 4;

/// The other program ended before the run did.
pub const PEER_LOST: u8 = 5;

/// A read from the other program or a write to it failed.
pub const PIPE_FAILED: u8 = 6;

/// What the other program sent was refused.
pub const REFUSED: u8 = 7;

/// Memory ran out.
pub const NO_MEMORY: u8 = 8;

/// The output, or the file of the notes, couldn't be written.
pub const OUTPUT_FAILED: u8 = 10;

/// The plug-in program couldn't be started.
pub const NOT_STARTED: u8 = 11;
