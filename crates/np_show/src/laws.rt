//! Laws of what is shown, each the contract of a function that does nothing.

ghost use Rattle.std.specs.Prelude.{List, ℕ};
ghost use Rattle.np_message.specs.Message.{Message};
ghost use Rattle.np_message.specs.declared.wire.WireError.{WireError};
ghost use Rattle.np_show.specs.Laws.{ShowsMessages, ShowsFault, ShowsTooLong};

use np_wire_laws::{encoded_is_read_again, fault_is_first, partial_is_cut_short};

/// A file of messages is shown by a line for each of them.
pub fn messages_are_shown()
    ensures law { (content : List ℕ) (messages : List Message) (rest : List ℕ) → ShowsMessages content messages rest }
{
    encoded_is_read_again();
    partial_is_cut_short();
}

/// A file is refused for the first fault after its messages.
pub fn faults_are_shown()
    ensures law { (content : List ℕ) (messages : List Message) (rest : List ℕ) (e : WireError) → ShowsFault content messages rest e }
{
    encoded_is_read_again();
    fault_is_first();
}

/// A file of messages that is too long is refused.
pub fn long_files_are_refused()
    ensures law { (content : List ℕ) (messages : List Message) (rest : List ℕ) → ShowsTooLong content messages rest }
{
    encoded_is_read_again();
    partial_is_cut_short();
}
