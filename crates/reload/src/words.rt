// Answers as words: whether they stand next, and what follows them.
use refusal::Refusal;

// A word that no case has.
const NEVER: u32 = 4294967295;

// An output's words before a call count on from here.
const FIRST: u32 = 0x0a000000;

// A value below 2^28.
pub fn value(v: u64) -> u32 {
    if 268435455 < v {
        return NEVER;
    }
    (268435456 + v) as u32
}

// A refusal's number, and behind it the words needed, or a place and an adapter.
pub fn refusal_word(r: Refusal) -> u32 {
    let n = refusals::numbers_of(r);
    let head = 0xf0 + n.number as u64;
    if n.number == 2 {
        if 16777215 < n.first {
            return NEVER;
        }
        return ((head * 16777216 + n.first as u64) % 4294967296) as u32;
    }
    if 65535 < n.first {
        return NEVER;
    }
    ((head * 16777216 + n.first as u64 * 256 + n.second as u64 % 256) % 4294967296) as u32
}

// An answer is its words, 0 where there is none, or its refusal.
pub fn after<const N: usize>(
    rest: &[u8],
    answer: Result<Option<[u32; N]>, Refusal>,
) -> Option<&[u8]> {
    match answer {
        Ok(Some(words)) => cases::after(rest, &words),
        Ok(None) => cases::after(rest, &[0]),
        Err(r) => cases::after(rest, &[refusal_word(r)]),
    }
}

// Whether a call is refused, with that word.
pub fn refuses<T: Drop>(answer: Result<T, Refusal>, word: u32) -> bool {
    match answer {
        Ok(_) => false,
        Err(r) => refusal_word(r) == word,
    }
}

// Makes an output's words ones that no call writes.
pub fn mark(output: &mut [u32]) {
    cases::mark(output, FIRST)
}

// Whether no word from `from` on was written.
pub fn kept(output: &[u32], from: usize) -> bool {
    for i in from..output.len() {
        if output[i] != FIRST.wrapping_add((i % 65536) as u32) {
            return false;
        }
    }
    true
}

// The words that say an answer, and those that it wrote into the output, which are the first n and no others.
pub fn after_written<'a, const N: usize>(
    rest: &'a [u8],
    answer: Result<Option<[u32; N]>, Refusal>,
    output: &[u32],
    n: usize,
) -> Option<&'a [u8]> {
    if !kept(output, n) {
        return None;
    }
    cases::after(after(rest, answer)?, output.get(..n)?)
}

// The number that stands next, 0 where nine bytes are none, and what follows it.
pub fn number(rest: &[u8]) -> Option<(u32, &[u8])> {
    let (word, rest) = cases::next(rest)?;
    Some((word.unwrap_or(0), rest))
}
