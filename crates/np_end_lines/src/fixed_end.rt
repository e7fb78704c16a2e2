//! The ends whose line is the same in every run.

ghost use Rattle.std.specs.Prelude.{◌≡◌};
ghost use Rattle.np_model.specs.Journal.{end_line};
ghost use Rattle.np_end_lines.specs.FixedEnds.{fixed_status};

use np_end_stops::exit_status;

/// An end of a run whose end line has nothing but the status. (This project's own.)
#[derive(Clone, Copy, Debug, PartialEq, Eq)]
pub enum FixedEnd {
    Done,
    Usage,
    FileFailed,
    PeerLost,
    PipeFailed,
    NotStarted,
}

impl FixedEnd {
    /// The exit status.
    pub fn status(self) -> u8
        ensures value { result ≡ fixed_status self }
    {
        match self {
            FixedEnd::Done => exit_status::DONE,
            FixedEnd::Usage => exit_status::USAGE,
            FixedEnd::FileFailed => exit_status::FILE_FAILED,
            FixedEnd::PeerLost => exit_status::PEER_LOST,
            FixedEnd::PipeFailed => exit_status::PIPE_FAILED,
            FixedEnd::NotStarted => exit_status::NOT_STARTED,
        }
    }

    /// The end line. It is part of the program, so it takes no memory.
    pub fn line(self) -> &'static str
        ensures value { result.now ≡ end_line (fixed_status self) }
    {
        match self {
            FixedEnd::Done => "end 0\n",
            FixedEnd::Usage => "end 2\n",
            FixedEnd::FileFailed => "end 4\n",
            FixedEnd::PeerLost => "end 5\n",
            FixedEnd::PipeFailed => "end 6\n",
            FixedEnd::NotStarted => "end 11\n",
        }
    }
}
