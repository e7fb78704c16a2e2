ghost use Rattle.np_model_wire_laws.specs.PluginPrefix.{PluginWaitsLaw, PluginEndsLaw, PluginNeverRefusesLaw, PluginBeginsLaw, PluginComesToRestLaw, PageFewBytesLaw};

/// Nothing of a prefix of the page's wire text is refused.
pub fn plugin_never_refuses_law()
    ensures law { PluginNeverRefusesLaw }
{
    np_wire_laws::encoded_is_read_again();
    np_wire_laws::no_encoding_begins_another();
    np_wire_laws::partial_is_cut_short();
    np_model_laws::calls_law();
    np_model_laws::plugin_more_messages_law();
    np_model_laws::honest_law();
}

/// Where the plug-in waits, it rests in the run that only the whole messages of its bytes reach.
pub fn plugin_waits_law()
    ensures law { PluginWaitsLaw }
{
    np_wire_laws::encoded_is_read_again();
    np_wire_laws::no_encoding_begins_another();
    np_wire_laws::partial_is_cut_short();
    np_model_laws::calls_law();
    np_model_laws::plugin_cut_law();
}

/// Where the plug-in ends, it rests in the run that only the whole messages of its bytes reach.
pub fn plugin_ends_law()
    ensures law { PluginEndsLaw }
{
    np_wire_laws::encoded_is_read_again();
    np_wire_laws::no_encoding_begins_another();
    np_wire_laws::partial_is_cut_short();
    np_model_laws::calls_law();
    np_model_laws::plugin_cut_law();
    np_model_laws::serves_law();
}

/// The plug-in comes to rest in the run that only the whole messages of such bytes reach.
pub fn plugin_comes_to_rest_law()
    ensures law { PluginComesToRestLaw }
{
    np_wire_laws::encoded_is_read_again();
    np_wire_laws::no_encoding_begins_another();
    np_wire_laws::partial_is_cut_short();
    np_model_laws::calls_law();
    np_model_laws::plugin_more_messages_law();
    np_model_laws::honest_law();
    np_model_laws::plugin_cut_law();
}

/// What the plug-in printed and sent stays where it comes to rest.
pub fn plugin_begins_law()
    ensures law { PluginBeginsLaw }
{
    np_wire_laws::encoded_is_read_again();
    np_wire_laws::no_encoding_begins_another();
    np_wire_laws::partial_is_cut_short();
    np_model_laws::calls_law();
    np_model_laws::plugin_alone_law();
    np_model_laws::plugin_journal_law();
}

/// The page's wire text is short: at most 2,061 bytes for each call that the page may make.
pub fn page_few_bytes_law()
    ensures law { PageFewBytesLaw }
{
    np_model_laws::calls_law();
    np_model_laws::no_attributes_law();
    np_model_laws::rounds_law();
    np_model_laws::endpoint_law();
    np_model_laws::few_calls_law();
}
