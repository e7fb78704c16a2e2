use np_script_grammar::{
    ClassDef, Classes, Commands, HandlerDef, Handlers, Member, Resources, TaskDef, Tasks,
};

/// The declaration that the last line left unfinished, as far as it has come.
#[derive(Drop)]
pub enum Unfinished {
    Nothing,
    OfClass(ClassDef),
    /// A member, with the class that it belongs to.
    OfMember(ClassDef, Member),
    OfHandler(HandlerDef),
    OfTask(TaskDef),
}

/// What the lines of a script say so far: a page's or a plug-in's.
#[derive(Drop)]
pub struct Building {
    pub major: u8,
    pub minor: u8,
    pub classes: Classes,
    pub resources: Resources,
    pub handlers: Handlers,
    pub tasks: Tasks,
    pub commands: Commands,
    pub unfinished: Unfinished,
}
