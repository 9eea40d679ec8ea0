// The form in which cases are stored, and no other: an input is pairs of hex digits in lower case, or `-` where it has no bytes; a word takes nine bytes of its line, a
// blank and eight such digits.
ghost use Rattle.std.specs.Prelude.{◌≡◌, ◌+◌, ◌≤◌, ◌↔◌, [], length, drop, IsSome, IfSome, option_copied};
ghost use Rattle.std.specs.List.{list_all};
ghost use Rattle.cases.specs.Cases.{put, no_input};
ghost use Rattle.cases.specs.Stored.{low_digit, is_low, byte_of, low_pairs, is_stored, stored_put, stored_in, word_at, after_words, says, list_put, list_in};

// The value of a digit, 16 for any other byte.
#[tactic(auto, unfolding(crate::specs::Stored::low_digit))]
fn digit(b: u8) -> u8
    ensures { result ≡ low_digit b }
{
    if b < 48 {
        return 16;
    }
    if b < 58 {
        return b - 48;
    }
    if b < 97 {
        return 16;
    }
    if b < 103 {
        return b - 87;
    }
    16
}

#[tactic(auto, unfolding(crate::specs::Stored::is_low))]
fn is_digit(b: u8) -> bool
    ensures { result ≡ is_low b }
{
    digit(b) < 16
}

fn are_digits(s: &[u8]) -> bool
    ensures { result ≡ list_all (λ b. is_low b) s.now }
{
    s.iter().all(|b| is_digit(*b))
}

// The byte of two digits.
#[tactic(auto, unfolding(crate::specs::Stored::byte_of))]
fn byte(high: u8, low: u8) -> u8
    ensures { result ≡ byte_of high low }
{
    digit(high) % 16 * 16 + digit(low) % 16
}

fn put_pairs(hex: &[u8], out: &mut [u8])
    requires { length out.old + length out.old ≡ length hex.now }
    ensures { out.new ≡ low_pairs hex.now }
{
    for (i, slot) in out.iter_mut().enumerate() {
        *slot = byte(hex[2 * i], hex[2 * i + 1]);
    }
}

#[tactic(auto, unfolding(crate::specs::Cases::no_input))]
fn is_dash(s: &[u8]) -> bool
    ensures { result ≡ no_input s.now }
{
    s.len() == 1 && s[0] == b'-'
}

#[tactic(auto, unfolding(crate::specs::Stored::is_stored, crate::specs::Cases::fit))]
fn is_stored(hex: &[u8], room: usize) -> bool
    ensures { result ≡ is_stored hex.now room }
{
    0 < hex.len() && (hex.len() % 2 == 0 && hex.len() / 2 <= room) && are_digits(hex)
}

// Puts an input's bytes into `out`; how many, if it is stored so and there is room for them, and else `out` stays as it is.
pub fn input(hex: &[u8], out: &mut [u8]) -> Option<usize>
    ensures bytes { out.new ≡ put (stored_put hex.now (length out.old)) out.old }
    ensures number { result ≡ stored_in hex.now (length out.old) }
    ensures within { IfSome result (λ n. n ≤ length out.new) }
{
    if is_dash(hex) {
        return Some(0);
    }
    if is_stored(hex, out.len()) {
        let n = hex.len() / 2;
        put_pairs(hex, &mut out[..n]);
        return Some(n);
    }
    None
}

// The word at the front, if one stands there.
#[tactic(auto, unfolding(crate::specs::Stored::word_at, crate::specs::Stored::word_value))]
fn word(rest: &[u8]) -> Option<u32>
    ensures { result ≡ word_at rest.now }
{
    if rest.len() < 9 || rest[0] != b' ' || !are_digits(&rest[1..9]) {
        return None;
    }
    let a = byte(rest[1], rest[2]);
    let b = byte(rest[3], rest[4]);
    let c = byte(rest[5], rest[6]);
    let d = byte(rest[7], rest[8]);
    Some(a as u32 * 16777216 + b as u32 * 65536 + c as u32 * 256 + d as u32)
}

// The word that the next nine bytes are, if they are one, and what follows them.
pub fn next(rest: &[u8]) -> Option<(Option<u32>, &[u8])>
    ensures there { IsSome result ↔ (9 ≤ length rest.now) }
    ensures word { IfSome result (λ p. p.0 ≡ word_at rest.now) }
    ensures rest { IfSome result (λ p. p.1.now ≡ drop 9 rest.now) }
{
    if rest.len() < 9 {
        return None;
    }
    Some((word(rest), &rest[9..]))
}

// What follows these words, if they stand next.
pub fn after<'a>(rest: &'a [u8], words: &[u32]) -> Option<&'a [u8]>
    ensures { option_copied result ≡ after_words rest.now words.now }
{
    let mut at = rest;
    for &w in words {
        let (found, more) = next(at)?;
        if found? != w {
            return None;
        }
        at = more;
    }
    Some(at)
}

// What follows the next nine bytes, or nothing.
fn behind(rest: &[u8]) -> &[u8]
    ensures { result.now ≡ drop 9 rest.now }
{
    &rest[rest.len().min(9)..]
}

// The words from here on up to the first that is none, again and again until `out` is full. Where none stands, 0.
fn repeat(rest: &[u8], out: &mut [u32])
    ensures { out.new ≡ says rest.now rest.now (length out.old) }
{
    let first = word(rest).unwrap_or(0);
    let mut at = rest;
    for slot in out.iter_mut() {
        match word(at) {
            Some(w) => {
                *slot = w;
                at = behind(at);
            }
            None => {
                *slot = first;
                at = behind(rest);
            }
        }
    }
}

// A list stands as its length, and then its words, which are said again and again until it is full. Puts it into `out`; how many words, if there is room for them, and
// else `out` stays as it is.
pub fn listed(rest: &[u8], out: &mut [u32]) -> Option<usize>
    ensures words { out.new ≡ put (list_put rest.now (length out.old)) out.old }
    ensures number { result ≡ list_in rest.now (length out.old) }
    ensures within { IfSome result (λ n. n ≤ length out.new) }
{
    let n = word(rest)? as usize;
    if out.len() < n {
        return None;
    }
    repeat(behind(rest), &mut out[..n]);
    Some(n)
}
