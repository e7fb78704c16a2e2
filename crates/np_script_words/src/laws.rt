//! What holds of the words of fields.
ghost use Rattle.np_script_words.specs.Laws.{OneField, OneWord, PlainWord, SpacedWords, OneReading, FieldsAreDecided, OneLine, SpacedLine};

/// A word spells at most one field of an item.
pub fn one_field()
    ensures law { OneField }
{}

/// A field's word is one word of a line, whatever stands after its space.
pub fn one_word()
    ensures law { OneWord }
{}

/// A field's word has only bytes that a line may have, and at least one.
pub fn plain_word()
    ensures law { PlainWord }
{}

/// A line of the words of fields, with one space between them, has these words, and bytes that a line may have.
pub fn spaced_words()
    ensures law { SpacedWords }
{}

/// Two lists of fields of one form that are spelled by the same words are the same.
pub fn one_reading()
    ensures law { OneReading }
{}

/// Words spell the fields of a form, or they spell none of it.
pub fn fields_are_decided()
    ensures law { FieldsAreDecided }
{}

/// What is said at a place of a script is said by its words: two lines of the same words are the same.
pub fn one_line()
    ensures law { OneLine }
{}

/// A line whose words have one space between them has these words, and bytes that a line may have.
pub fn spaced_line()
    ensures law { SpacedLine }
{}
