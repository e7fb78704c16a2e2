ghost use Rattle.np_model_scripts.specs.Laws.{ServedPagesAreWellFormed, UnservedPagesAreAbove, UnservedPluginsAreAbove};

/// A page that is served is well formed, and has no more commands than a script has bytes.
pub fn served_pages_are_well_formed()
    ensures law { ServedPagesAreWellFormed }
{
    np_script::page_scripts_keep_rules();
    np_script::commands_are_few();
}

/// A page is unserved exactly where its level is above 1.
pub fn unserved_pages_are_above()
    ensures law { UnservedPagesAreAbove }
{}

/// A plug-in is unserved exactly where its level is above 1.
pub fn unserved_plugins_are_above()
    ensures law { UnservedPluginsAreAbove }
{}
