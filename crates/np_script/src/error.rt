//! Why a script isn't read.
ghost use Rattle.std.specs.Prelude.{◌≡◌};
ghost use Rattle.np_script.specs.declared.error.ParseError.TheVariants.{Script as of_script, NoMemory as of_memory};

use np_script_grammar::ScriptError;
use np_values::NoMemory;

/// Why a script could not be read. (This project's own.)
#[derive(Clone, Copy, Debug, PartialEq, Eq)]
pub enum ParseError {
    /// The bytes aren't a script: the first line at which none continues, and why.
    Script(ScriptError),
    /// Memory ran out before the script was read; it says nothing about the bytes.
    NoMemory,
}

impl From<NoMemory> for ParseError {
    ghost from_gives = { λ _ e. e ≡ of_memory };

    fn from(_: NoMemory) -> Self {
        ParseError::NoMemory
    }
}

impl From<ScriptError> for ParseError {
    ghost from_gives = { λ given e. e ≡ of_script given };

    fn from(error: ScriptError) -> Self {
        ParseError::Script(error)
    }
}
