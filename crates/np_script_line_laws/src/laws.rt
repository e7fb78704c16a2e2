ghost use Rattle.np_script_line_laws.specs.Laws.{CanonicalLinesSayPages, CanonicalLinesSayPlugins, CanonicalPagesAreInOrder, CanonicalPluginsAreInOrder, PrefixesAreInOrder, LinesCanBeCompleted};
ghost use Rattle.np_script_line_laws.specs.Limits.{PagesKeepLimits, PluginsKeepLimits};

/// The canonical lines of a page say that page.
pub fn canonical_lines_say_pages()
    ensures law { CanonicalLinesSayPages }
{}

/// The canonical lines of a plug-in say that plug-in.
pub fn canonical_lines_say_plugins()
    ensures law { CanonicalLinesSayPlugins }
{}

/// The canonical lines of a page are in order, where lines are that say it.
pub fn canonical_pages_are_in_order()
    ensures law { CanonicalPagesAreInOrder }
{}

/// The canonical lines of a plug-in are in order, where lines are that say it.
pub fn canonical_plugins_are_in_order()
    ensures law { CanonicalPluginsAreInOrder }
{}

/// Lines that begin lines in order are in order.
pub fn prefixes_are_in_order()
    ensures law { PrefixesAreInOrder }
{}

/// Lines that are in order can be continued, to a place where a script may end.
pub fn lines_can_be_completed()
    ensures law { LinesCanBeCompleted }
{}

/// A page that keeps the rules of the grammar has no more than its limits allow, and nothing twice.
pub fn pages_keep_limits()
    ensures law { PagesKeepLimits }
{}

/// A plug-in that keeps the rules of the grammar has no more than its limits allow, and nothing twice.
pub fn plugins_keep_limits()
    ensures law { PluginsKeepLimits }
{}
