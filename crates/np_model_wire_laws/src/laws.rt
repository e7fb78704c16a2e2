ghost use Rattle.np_model.specs.PagePlan.{PageControl};
ghost use Rattle.np_model.specs.PluginPlan.{PluginControl};
ghost use Rattle.np_model_wire_laws.specs.Prefix.{NeverRefusesLaw, WaitsLaw, EndsLaw, ComesToRestLaw, RestsUnrefusedLaw, BeginsLaw, OneWholeLaw, FewBytesLaw};

/// Nothing of a prefix of the plug-in's wire text is refused.
pub fn never_refuses_law()
    ensures law { NeverRefusesLaw }
{
    np_wire_laws::encoded_is_read_again();
    np_wire_laws::no_encoding_begins_another();
    np_wire_laws::partial_is_cut_short();
    np_model_laws::replies_law();
    np_model_laws::more_messages_law();
    np_model_laws::honest_law();
}

/// Where the page waits, it rests in the run that only the whole messages of its bytes reach.
pub fn waits_law()
    ensures law { WaitsLaw }
{
    np_wire_laws::encoded_is_read_again();
    np_wire_laws::no_encoding_begins_another();
    np_wire_laws::partial_is_cut_short();
    np_model_laws::replies_law();
    np_model_laws::cut_law();
}

/// Where the page ends, it rests in the run that only the whole messages of its bytes reach.
pub fn ends_law()
    ensures law { EndsLaw }
{
    np_wire_laws::encoded_is_read_again();
    np_wire_laws::no_encoding_begins_another();
    np_wire_laws::partial_is_cut_short();
    np_model_laws::replies_law();
    np_model_laws::cut_law();
    np_model_laws::more_messages_law();
    np_model_laws::rounds_law();
    np_model_laws::endpoint_law();
    np_model_laws::journal_law();
    np_model_laws::paced_law();
}

/// In the run that only the whole messages of such bytes reach the page comes to rest.
pub fn comes_to_rest_law()
    ensures law { ComesToRestLaw }
{
    np_wire_laws::encoded_is_read_again();
    np_wire_laws::no_encoding_begins_another();
    np_wire_laws::partial_is_cut_short();
    np_model_laws::replies_law();
    np_model_laws::more_messages_law();
    np_model_laws::honest_law();
    np_model_laws::cut_law();
}

/// Where a side waits, or has ended, no place of it refuses anything of the bytes that it was given,
/// whoever sent them.
pub fn rests_unrefused_law()
    ensures page { RestsUnrefusedLaw PageControl }
    ensures plugin { RestsUnrefusedLaw PluginControl }
{
    np_wire_laws::encoded_is_read_again();
    np_wire_laws::no_encoding_begins_another();
    np_wire_laws::partial_is_cut_short();
    np_model_laws::more_messages_law();
    np_model_laws::plugin_more_messages_law();
}

/// What the page printed and sent stays where it comes to rest.
pub fn begins_law()
    ensures law { BeginsLaw }
{
    np_wire_laws::encoded_is_read_again();
    np_wire_laws::no_encoding_begins_another();
    np_wire_laws::partial_is_cut_short();
    np_model_laws::replies_law();
    np_model_laws::alone_law();
    np_model_laws::journal_law();
}

/// Bytes have one number of whole messages.
pub fn one_whole_law()
    ensures law { OneWholeLaw }
{
    np_wire_laws::encoded_is_read_again();
    np_wire_laws::no_encoding_begins_another();
}

/// The plug-in's wire text is short: at most nine bytes for each call that the page may make.
pub fn few_bytes_law()
    ensures law { FewBytesLaw }
{
    np_model_laws::replies_law();
    np_model_laws::rounds_law();
    np_model_laws::endpoint_law();
    np_model_laws::few_calls_law();
}
