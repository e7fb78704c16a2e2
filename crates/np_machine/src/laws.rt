ghost use Rattle.np_machine.specs.Laws.{EndpointLaw, CutLaw, PluginCutLaw, AloneLaw, PluginAloneLaw, OneRestLaw, MoreMessagesLaw, JournalLaw, RoundsLaw, HonestNamesLaw, DeliveredLaw, SoundLaw, ReleasesLaw, NamesLaw, ExaminedLaw, RemoteLaw, TurnsLaw};

// Each law holds for any controls C of the page and D of the plug-in, and for any plans over them.

/// One side alone, given the other side's messages, is that side of the machine, in whatever order the two
/// sides take turns and whatever their plans are.
pub fn endpoint_law<C, D>()
    ensures law { EndpointLaw C D }
{}

/// What the page alone rests at with the first messages of the plug-in is the page of the run that only
/// these messages reach.
pub fn cut_law<C, D>()
    ensures law { CutLaw C D }
{}

/// What the plug-in alone rests at with the first messages of the page is the plug-in of the run that only
/// these messages reach.
pub fn plugin_cut_law<C, D>()
    ensures law { PluginCutLaw C D }
{}

/// What the page rests at in a run that only the first messages of the plug-in reach is what it rests at
/// alone with these messages.
pub fn alone_law<C, D>()
    ensures law { AloneLaw C D }
{}

/// What the plug-in rests at in a run that only the first messages of the page reach is what it rests at
/// alone with these messages.
pub fn plugin_alone_law<C, D>()
    ensures law { PluginAloneLaw C D }
{}

/// There is one rest: of each side alone, and of each side of a machine that only the first messages reach.
pub fn one_rest_law<C, D>()
    ensures law { OneRestLaw C D }
{}

/// With more messages a side alone still reaches each state that it reached.
pub fn more_messages_law<C>()
    ensures law { MoreMessagesLaw C }
{}

/// What a side printed, sent and put so far stays: more messages only add lines, messages and files after them.
pub fn journal_law<C>()
    ensures law { JournalLaw C }
{}

/// The rounds of the one process are turns in one order, so that what holds for every order holds for rounds.
pub fn rounds_law<C, D>()
    ensures law { RoundsLaw C D }
{}

/// Whatever the plans are, a message of the machine names only objects that its receiver sent and did not get
/// back, and gives back no more references than are out.
pub fn honest_names_law<C, D>()
    ensures law { HonestNamesLaw C D }
{}

/// A plan delivers messages in one order alone: the one that was examined last first.
pub fn delivered_law<C>()
    ensures law { DeliveredLaw C }
{}

/// One side keeps the counts of the other side's objects in balance, whatever messages reach it. So it never
/// gives back more references than it received, and gives back all of an object that it refers to no more.
pub fn sound_law<C>()
    ensures law { SoundLaw C }
{}

/// What one side gives back keeps the wire format, where the messages that reach it do: at most 1,024 names a
/// message, each once and in rising order, and of each at least one reference.
pub fn releases_law<C>()
    ensures law { ReleasesLaw C }
{}

/// The objects of a side are its own, in rising order of names, each once, and no name is used again.
pub fn names_law<C>()
    ensures law { NamesLaw C }
{}

/// One side alone examines the messages that reach it in their order, and leaves none out.
pub fn examined_law<C>()
    ensures law { ExaminedLaw C }
{}

/// One side's own count of references agrees with a look at the whole machine: both say which of its objects
/// are remotely referenced.
pub fn remote_law<C, D>()
    ensures law { RemoteLaw C D }
{}

/// At each state of each run, what a side's turn does is told by that side and the messages that reach it.
pub fn turns_law<C, D>()
    ensures law { TurnsLaw C D }
{}
