ghost use Rattle.std.specs.Prelude.{◌≡◌};
ghost use Rattle.np_calls.specs.Calls.{AreOutstanding, is_task_alone as is_one_of_a_task, page_place as page_place_of, plugin_place as plugin_place_of};

use np_message::Depth;

/// How a call of the other side stands to a side's own open calls. (This project's own.)
#[derive(Clone, Copy, Debug, PartialEq, Eq)]
pub enum Place {
    /// It was made while the other side served the last outstanding call, or none is outstanding.
    Nested,
    /// It and the last outstanding call were made without knowing of each other: one of them is a task's.
    Crossed,
    /// No honest side makes it now.
    Bad,
}

/// Where a call of the plug-in stands among the page's calls.
pub fn page_place(calls: &[Depth], depth: &Depth) -> Place
    ensures value { result ≡ page_place_of calls.now depth.now }
{
    if depth.task {
        return if calls.len() == 1 {
            Place::Crossed
        } else {
            Place::Bad
        };
    }
    match calls.last() {
        Some(last) if last.level < depth.level => Place::Nested,
        _ => Place::Bad,
    }
}

/// Where a call of the page stands among the plug-in's calls.
pub fn plugin_place(calls: &[Depth], depth: &Depth) -> Place
    requires calls { AreOutstanding calls.now }
    ensures value { result ≡ plugin_place_of calls.now depth.now }
{
    if depth.task {
        return Place::Bad;
    }
    if is_task_alone(calls) {
        return Place::Crossed;
    }
    match calls.last() {
        Some(last) if last.level >= depth.level => Place::Bad,
        _ => Place::Nested,
    }
}

fn is_task_alone(calls: &[Depth]) -> bool
    requires calls { AreOutstanding calls.now }
    ensures value { result ≡ is_one_of_a_task calls.now }
{
    match calls {
        [only] => only.task,
        _ => false,
    }
}
