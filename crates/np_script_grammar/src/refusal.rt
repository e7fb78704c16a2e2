/// Why bytes aren't a script, in the order in which it is tried. (This project's own.)
#[derive(Clone, Copy, Debug, PartialEq, Eq)]
pub enum ScriptKind {
    /// The script has more than 1,048,576 bytes; the line is 0.
    Size,
    /// The line isn't UTF-8, or has a byte below 20 or the byte 7f.
    Bytes,
    /// The first word isn't one that may stand at this place.
    Word,
    /// The rest of the line isn't of that word's form.
    Form,
    /// The line passes a limit.
    Limit,
    /// The line declares what is there already.
    Twice,
    /// The script ends where a line must follow; the line is one more than the number of lines.
    End,
}

/// The first line at which no script continues, counted from 1, and why.
#[derive(Clone, Copy, Debug, PartialEq, Eq)]
pub struct ScriptError {
    pub line: u32,
    pub kind: ScriptKind,
}
