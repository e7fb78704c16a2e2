//! Numbers in base 10. A number has one spelling: what it prints as.
ghost use Rattle.std.specs.Prelude.{◌≡◌, ◌≢◌, ◌^◌, ◌<◌, ◌≤◌, IfSome, None, true, ℕ, ℤ};
ghost use Rattle.std.specs.Fmt.{decimal, signed_decimal};
ghost use Rattle.np_script_grammar.specs.Fields.{is_int, register_word};

use itoa::Buffer;

/// The number that a word spells, if it spells one; else any.
fn parsed_number(word: &[u8]) -> Option<u32>
    ensures value { (n : ℕ) → n < 2 ^ 32 → word.now ≡ decimal n → result ≡ Some n }
{
    match str::from_utf8(word) {
        Ok(text) => text.parse().ok(),
        Err(_) => None,
    }
}

/// The number that a word spells, if it spells one; else any.
fn parsed_int(word: &[u8]) -> Option<i32>
    ensures value { (n : ℤ) → is_int n ≡ true → word.now ≡ signed_decimal n → result ≡ Some n }
{
    match str::from_utf8(word) {
        Ok(text) => text.parse().ok(),
        Err(_) => None,
    }
}

/// The number within these bounds that a word spells.
pub fn read_number(low: u32, high: u32, word: &[u8]) -> Option<u32>
    ensures some { IfSome result (λ n. (word.now ≡ decimal n) × (low ≤ n) × (n ≤ high)) }
    ensures none { result ≡ None → (n : ℕ) → low ≤ n → n ≤ high → word.now ≢ decimal n }
{
    let number = parsed_number(word)?;
    if number < low || number > high || Buffer::new().format(number).as_bytes() != word {
        return None;
    }
    Some(number)
}

/// The number of 32 bits with a sign that a word spells.
pub fn read_int(word: &[u8]) -> Option<i32>
    ensures some { IfSome result (λ n. word.now ≡ signed_decimal n) }
    ensures none { result ≡ None → (n : ℤ) → is_int n ≡ true → word.now ≢ signed_decimal n }
{
    let number = parsed_int(word)?;
    if Buffer::new().format(number).as_bytes() != word {
        return None;
    }
    Some(number)
}

/// The register that a word spells.
pub fn read_register(word: &[u8]) -> Option<u8>
    ensures some { IfSome result (λ n. (word.now ≡ register_word n) × (n < 16)) }
    ensures none { result ≡ None → (n : ℕ) → n < 16 → word.now ≢ register_word n }
{
    let [b'$', digits @ ..] = word else {
        return None;
    };
    let number = read_number(0, 15, digits)?;
    Some(number as u8)
}
