//! Lines, and the words that they split into.
ghost use Rattle.std.specs.Prelude.{◌≡◌, ◌≢◌, ◌<◌, ◌≤◌, ◌↔◌, [], ◌∷◌, length, take, drop, slice_index, IfSome, None, true, false};
ghost use Rattle.std.specs.List.{list_all};
ghost use Rattle.std.specs.Str.{is_utf8};
ghost use Rattle.np_script_grammar.specs.Words.{is_line, is_plain, words_of, words_from, spot_after as after_spot, parts_words as parts};
ghost use Rattle.np_script_grammar.specs.Words.Spot.{InWord as in_word};
ghost use Rattle.np_script_words.specs.Spots.{spot_of};

fn has_plain_bytes(line: &[u8]) -> bool
    ensures value { result ≡ list_all is_plain line.now }
{
    line.iter().all(|b| *b >= 32 && *b != 127)
}

/// Whether bytes are UTF-8.
#[tactic(auto, using(crate::proofs::Utf8::is_whole, crate::proofs::Utf8::is_broken))]
pub fn has_utf8(line: &[u8]) -> bool
    ensures value { result ≡ is_utf8 line.now }
{
    match str::from_utf8(line) {
        Ok(_) => true,
        Err(_) => false,
    }
}

/// Whether a script may have a line of these bytes: it is UTF-8, with no byte below 20 and none that is 7f.
#[tactic(auto, unfolding(np_script_grammar::specs::Words::is_line))]
pub fn is_plain_line(line: &[u8]) -> bool
    ensures value { result ≡ is_line line.now }
{
    has_plain_bytes(line) && has_utf8(line)
}

/// Where a byte of a word stands.
#[derive(Clone, Copy)]
enum Spot {
    InWord,
    InQuotes,
    /// After a backslash in a quoted text.
    Escaped,
}

fn spot_after(spot: Spot, b: u8) -> Spot
    ensures value { spot_of result ≡ after_spot (spot_of spot) b }
{
    match spot {
        Spot::InWord => {
            if b == b'"' {
                Spot::InQuotes
            } else {
                Spot::InWord
            }
        }
        Spot::InQuotes => {
            if b == b'"' {
                Spot::InWord
            } else if b == b'\\' {
                Spot::Escaped
            } else {
                Spot::InQuotes
            }
        }
        Spot::Escaped => Spot::InQuotes,
    }
}

fn parts_words(spot: Spot, b: u8) -> bool
    ensures value { result ≡ parts (spot_of spot) b }
{
    match spot {
        Spot::InWord => b == b' ',
        Spot::InQuotes => false,
        Spot::Escaped => false,
    }
}

/// How many bytes the word has that a line begins with.
fn word_len(line: &[u8]) -> usize
    ensures within { result ≤ length line.now }
    ensures words { words_from in_word line.now ≡ take result line.now ∷ words_of (drop result line.now) }
    ensures some { 0 < length line.now → slice_index line.now 0 ≢ 32 → 0 < result }
{
    let mut spot = Spot::InWord;
    for (i, b) in line.iter().enumerate() {
        if parts_words(spot, *b) {
            return i;
        }
        spot = spot_after(spot, *b);
    }
    line.len()
}

/// What stands after the spaces at the front.
fn skip_spaces(line: &[u8]) -> &[u8]
    ensures words { words_of result.now ≡ words_of line.now }
    ensures first { 0 < length result.now → slice_index result.now 0 ≢ 32 }
    ensures within { length result.now ≤ length line.now }
{
    let mut left = line;
    while let [b' ', rest @ ..] = left {
        left = rest;
    }
    left
}

/// Whether a line has a word.
pub fn has_word(line: &[u8]) -> bool
    ensures yes { result ≡ true → words_of line.now ≢ [] }
    ensures no { result ≡ false → words_of line.now ≡ [] }
{
    !skip_spaces(line).is_empty()
}

/// The first word of a line, and what stands after it; `None` where there is no word. Words are separated by
/// spaces outside quoted texts.
pub fn next_word(line: &[u8]) -> Option<(&[u8], &[u8])>
    ensures words { IfSome result (λ w. words_of line.now ≡ w.0.now ∷ words_of w.1.now) }
    ensures not_empty { IfSome result (λ w. 0 < length w.0.now) }
    ensures shorter { IfSome result (λ w. length w.1.now < length line.now) }
    ensures none { result ≡ None ↔ (words_of line.now ≡ []) }
{
    let line = skip_spaces(line);
    if line.is_empty() {
        return None;
    }
    Some(line.split_at(word_len(line)))
}
