//! What holds of any calls of a feed, as the contract of a function that does nothing.
ghost use Rattle.np_wire.specs.FeedRuns.{GivesWhatWasPushed};

/// In whatever chunks bytes are pushed, and however often `next` is called in between, the messages given are those of the bytes pushed.
pub fn feeds_give_what_was_pushed()
    ensures law { GivesWhatWasPushed }
{}
