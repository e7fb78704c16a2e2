ghost use Rattle.np_script_text_laws.specs.Laws.{OneSay, LinesAreJudged, LinesGoOn, SkippedLinesGoOn, RefusedLinesEnd, TextsCanBeCompleted, TextsHaveTheirLines, LinesAreFew, OneRefusal, RefusedTextsAreNoScripts};

/// The lines of a text say one thing.
pub fn one_say()
    ensures law { OneSay }
{
    np_script_words::one_line();
}

/// A line that isn't skipped may come next, or has a kind of refusal.
pub fn lines_are_judged()
    ensures law { LinesAreJudged }
{
    np_script_words::fields_are_decided();
}

/// A text continues with a line that may come next.
pub fn lines_go_on()
    ensures law { LinesGoOn }
{}

/// A skipped line says nothing.
pub fn skipped_lines_go_on()
    ensures law { SkippedLinesGoOn }
{}

/// No script continues with a line that has a kind of refusal, if it isn't skipped.
pub fn refused_lines_end()
    ensures law { RefusedLinesEnd }
{
    np_script_words::one_line();
}

/// Lines of a text can be continued, to a place where a script may end.
pub fn texts_can_be_completed()
    ensures law { TextsCanBeCompleted }
{
    np_script_words::spaced_line();
    np_script_line_laws::lines_can_be_completed();
}

/// Lines in order are the lines of their text.
pub fn texts_have_their_lines()
    ensures law { TextsHaveTheirLines }
{
    np_script_words::spaced_line();
}

/// A text has no more lines that count than bytes.
pub fn lines_are_few()
    ensures law { LinesAreFew }
{}

/// A text is refused for one error.
pub fn one_refusal()
    ensures law { OneRefusal }
{
    np_script_words::one_line();
}

/// A text that is refused isn't a script.
pub fn refused_texts_are_no_scripts()
    ensures law { RefusedTextsAreNoScripts }
{}
