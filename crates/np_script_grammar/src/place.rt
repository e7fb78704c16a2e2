/// Where a reader of a script stands between two lines. (This project's own.)
#[derive(Clone, Copy, Debug, PartialEq, Eq)]
pub enum Place {
    /// Before the first line.
    Head,
    /// Where a declaration may begin.
    Top,
    /// In a class, between its members.
    Class,
    /// In the body of a member.
    MemberBody,
    /// In the body of a handler or a task.
    Body,
    /// After `do`.
    Commands,
}
