//! The laws of pages and plug-ins. Each is the contract of a function with an empty body, or one that calls the machine's law.
ghost use Rattle.np_machine_plans.specs.Laws.{DirectLaw, NamesLaw, PageDefersLaw, PluginDeliversLaw};

use crate::{PageControl, PluginControl};

/// The run in which the plug-in goes on for as long as it can, and the page only then, is a run in some order of turns.
pub fn direct_law<C, D>()
    ensures law { DirectLaw C D }
{}

/// In any order of turns, the next message is refused neither as unknown nor as too many for the receiver's own objects.
pub fn names_law()
    ensures law { NamesLaw }
{
    np_machine::honest_names_law::<PageControl, PluginControl>();
}

/// Whatever a page sends, each message that a plug-in examined was delivered at once.
pub fn plugin_delivers_law()
    ensures law { PluginDeliversLaw }
{
    np_machine::delivered_law::<PluginControl>();
}

/// Whatever a plug-in sends, each message that a page examined was delivered at once, but for at most one task's call.
pub fn page_defers_law()
    ensures law { PageDefersLaw }
{
    np_machine::delivered_law::<PageControl>();
}
