//! How much there is.
ghost use Rattle.std.specs.Prelude.{◌≡◌, ◌^◌, ◌<◌, [], bytes_eq, slice_get, option_map, true};
ghost use Rattle.np_script_grammar.specs.Scripts.{is_member_word};
ghost use Rattle.np_script_grammar.specs.Order.{are_few, counts_at_top, counts_after, resource_bytes};
ghost use Rattle.np_script_grammar.specs.declared.place.Place.TheVariants.{Class as in_class, Body as in_body, Commands as behind_do};
ghost use Rattle.np_script_grammar.specs.Takes.{number_in, text_in};
ghost use Rattle.np_script_order.specs.Counts.{counts_of, held};

use np_script_grammar::{Field, Fields, Place};
use np_values::Text;

/// This many classes, members of the class that was opened last, actions of the body that was opened last,
/// tasks, `create` lines, and bytes of resources.
#[derive(Clone, Copy, Debug, PartialEq, Eq)]
pub struct Tally {
    pub classes: u32,
    pub members: u32,
    pub actions: u32,
    pub tasks: u32,
    pub creates: u32,
    pub bytes: u64,
}

/// Before the first line.
pub const NOTHING: Tally = Tally {
    classes: 0,
    members: 0,
    actions: 0,
    tasks: 0,
    creates: 0,
    bytes: 0,
};

impl Tally {
    /// Whether a script may have so much.
    pub fn is_small(self) -> bool
        ensures value { result ≡ are_few (counts_of self) }
    {
        self.classes <= 64
            && self.members <= 64
            && self.actions <= 256
            && self.tasks <= 32
            && self.creates <= 255
            && self.bytes <= 16777216
    }
}

/// Whether bytes are this word.
pub fn is_word(bytes: &[u8], word: &str) -> bool
    ensures value { result ≡ bytes_eq bytes.now word.now }
{
    bytes == word.as_bytes()
}

/// Whether a line of this word opens a member.
pub fn opens_member(word: &[u8]) -> bool
    ensures value { result ≡ is_member_word word.now }
{
    is_word(word, "method")
        || is_word(word, "default")
        || is_word(word, "construct")
        || is_word(word, "getter")
        || is_word(word, "setter")
}

/// The number at a place of a line.
fn number_at(fields: &Fields, place: usize) -> Option<u32>
    ensures value { result ≡ held number_in (slice_get fields.now place) }
{
    match fields.get(place)? {
        Field::Number(number) => Some(*number),
        _ => None,
    }
}

/// The text at a place of a line.
fn text_at(fields: &Fields, place: usize) -> Option<&Text>
    ensures value { option_map (λ text. text.now) result ≡ held text_in (slice_get fields.now place) }
{
    match fields.get(place)? {
        Field::Text(text) => Some(text),
        _ => None,
    }
}

/// The bytes of a resource of these fields.
fn resource_size(fields: &Fields) -> u64
    ensures value { result ≡ resource_bytes fields.now }
    ensures fits { result < 2 ^ 43 }
{
    if fields.len() != 4 {
        return 0;
    }
    match (number_at(fields, 2), text_at(fields, 3)) {
        (Some(times), Some(piece)) => u64::from(times) * piece.as_str().len() as u64,
        _ => 0,
    }
}

/// How much there is with a line at the top.
fn counted_at_top(before: Tally, word: &[u8], fields: &Fields) -> Tally
    requires small { are_few (counts_of before) ≡ true }
    ensures value { counts_of result ≡ counts_at_top (counts_of before) (word.now, fields.now) }
{
    let mut now = before;
    if is_word(word, "class") {
        now.classes += 1;
        now.members = 0;
    } else if is_word(word, "task") {
        now.tasks += 1;
        now.actions = 0;
    } else if is_word(word, "handler") {
        now.actions = 0;
    } else if is_word(word, "resource") {
        now.bytes += resource_size(fields);
    }
    now
}

/// How much there is with a line in a body.
fn counted_in_body(before: Tally, word: &[u8]) -> Tally
    requires small { are_few (counts_of before) ≡ true }
    ensures value { counts_of result ≡ counts_after in_body (counts_of before) (word.now, []) }
{
    let mut now = before;
    if !is_word(word, "end") {
        now.actions += 1;
    }
    now
}

/// How much there is with a line in a class.
fn counted_in_class(before: Tally, word: &[u8]) -> Tally
    requires small { are_few (counts_of before) ≡ true }
    ensures value { counts_of result ≡ counts_after in_class (counts_of before) (word.now, []) }
{
    let mut now = before;
    if opens_member(word) {
        now.members += 1;
        now.actions = 0;
    }
    now
}

/// How much there is with a line after `do`.
fn counted_behind_do(before: Tally, word: &[u8]) -> Tally
    requires small { are_few (counts_of before) ≡ true }
    ensures value { counts_of result ≡ counts_after behind_do (counts_of before) (word.now, []) }
{
    let mut now = before;
    if is_word(word, "create") {
        now.creates += 1;
    }
    now
}

/// How much there is with a line at a place.
pub fn counted(place: Place, before: Tally, word: &[u8], fields: &Fields) -> Tally
    requires small { are_few (counts_of before) ≡ true }
    ensures value { counts_of result ≡ counts_after place (counts_of before) (word.now, fields.now) }
{
    match place {
        Place::Head => before,
        Place::Top => counted_at_top(before, word, fields),
        Place::Class => counted_in_class(before, word),
        Place::MemberBody => counted_in_body(before, word),
        Place::Body => counted_in_body(before, word),
        Place::Commands => counted_behind_do(before, word),
    }
}
