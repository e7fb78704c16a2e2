//! Where a line leads.
ghost use Rattle.std.specs.Prelude.{◌≡◌};
ghost use Rattle.np_script_grammar.specs.Scripts.{place_after};
ghost use Rattle.np_script_grammar.specs.declared.place.Place.TheVariants.{Top as top, Class as in_class};

use crate::count::{is_word, opens_member};
use np_script_grammar::Place;

fn behind_top(word: &[u8]) -> Place
    ensures value { result ≡ place_after top word.now }
{
    if is_word(word, "class") {
        return Place::Class;
    }
    if is_word(word, "handler") || is_word(word, "task") {
        return Place::Body;
    }
    if is_word(word, "do") {
        return Place::Commands;
    }
    Place::Top
}

fn behind_class(word: &[u8]) -> Place
    ensures value { result ≡ place_after in_class word.now }
{
    if opens_member(word) {
        return Place::MemberBody;
    }
    if is_word(word, "endclass") {
        return Place::Top;
    }
    Place::Class
}

/// Where a script stands after a line of this word.
pub fn behind(place: Place, word: &[u8]) -> Place
    ensures value { result ≡ place_after place word.now }
{
    match place {
        Place::Head => Place::Top,
        Place::Top => behind_top(word),
        Place::Class => behind_class(word),
        Place::MemberBody => {
            if is_word(word, "end") {
                Place::Class
            } else {
                Place::MemberBody
            }
        }
        Place::Body => {
            if is_word(word, "end") {
                Place::Top
            } else {
                Place::Body
            }
        }
        Place::Commands => Place::Commands,
    }
}
