ghost use Rattle.np_model_laws.specs.Laws.{EndpointLaw, CutLaw, PluginCutLaw, MoreMessagesLaw, OneRestLaw, HonestLaw, JournalLaw, LostLaw, AloneLaw, RoundsLaw, RepliesLaw, PacedLaw, FewCallsLaw, PluginMoreMessagesLaw, PluginAloneLaw, PluginJournalLaw, PluginOneRestLaw, CallsLaw, ServesLaw, NoAttributesLaw};

/// One side alone, given the other side's messages, is that side of the machine, in whatever order the
/// two sides take turns and whatever they do.
pub fn endpoint_law()
    ensures law { EndpointLaw }
{}

/// What the page alone rests at with the first messages of the plug-in is the page of the run that only
/// these messages reach.
pub fn cut_law()
    ensures law { CutLaw }
{}

/// What the plug-in alone rests at with the first messages of the page is the plug-in of the run that
/// only these messages reach.
pub fn plugin_cut_law()
    ensures law { PluginCutLaw }
{}

/// In a run of a page and a plug-in no message is refused.
pub fn honest_law()
    ensures law { HonestLaw }
{}

/// There is one rest: of a side alone, and of each side of a machine that only the first messages reach.
pub fn one_rest_law()
    ensures law { OneRestLaw }
{}

/// What the page printed and sent so far stays: more messages only add lines and messages after them.
pub fn journal_law()
    ensures law { JournalLaw }
{}

/// The page that continues alone after the plug-in is lost sends nothing more, and ends.
pub fn lost_law()
    ensures law { LostLaw }
{}

/// With more messages the page alone comes to all that it came to.
pub fn more_messages_law()
    ensures law { MoreMessagesLaw }
{}

/// What the page of the run rests at that only the first messages of the plug-in reach is what the page
/// alone rests at with these messages.
pub fn alone_law()
    ensures law { AloneLaw }
{}

/// The rounds of a machine are turns in one order, so that `endpoint_law` speaks of them.
pub fn rounds_law()
    ensures law { RoundsLaw }
{}

/// In the run of a page and a plug-in the plug-in sends replies alone, at most one for each call.
pub fn replies_law()
    ensures law { RepliesLaw }
{}

/// The page alone makes a call only when each earlier one was answered.
pub fn paced_law()
    ensures law { PacedLaw }
{}

/// The page alone makes few calls: at most two for each command, and two more.
pub fn few_calls_law()
    ensures law { FewCallsLaw }
{}

/// With more messages the plug-in alone comes to all that it came to.
pub fn plugin_more_messages_law()
    ensures law { PluginMoreMessagesLaw }
{}

/// What the plug-in of the run rests at that only the first messages of the page reach is what the
/// plug-in alone rests at with these messages.
pub fn plugin_alone_law()
    ensures law { PluginAloneLaw }
{}

/// What the plug-in printed and sent so far stays: more messages only add lines and messages after them.
pub fn plugin_journal_law()
    ensures law { PluginJournalLaw }
{}

/// There is one rest of the plug-in alone.
pub fn plugin_one_rest_law()
    ensures law { PluginOneRestLaw }
{}

/// In the run of a page and a plug-in the page makes calls alone, each of which may come where the
/// earlier ones have led the plug-in.
pub fn calls_law()
    ensures law { CallsLaw }
{}

/// What the plug-in alone sent and printed, and where it stands, follow from the calls that it examined.
pub fn serves_law()
    ensures law { ServesLaw }
{}

/// The page alone makes NPP_New without attributes.
pub fn no_attributes_law()
    ensures law { NoAttributesLaw }
{}
