// The answers of the Rust: whether a call's answer is what the words say.
use register::Register;

// What is left of a line, and whether LF ends it.
#[derive(Clone, Copy)]
pub struct Rest<'a> {
    pub bytes: &'a [u8],
    pub ended: bool,
}

impl<'a> Rest<'a> {
    // The word that stands next, and what follows it; nine bytes that are no word are passed over as one that is none.
    pub fn next(self) -> Option<(Option<u32>, Rest<'a>)> {
        let (word, bytes) = cases::next(self.bytes)?;
        Some((
            word,
            Rest {
                bytes,
                ended: self.ended,
            },
        ))
    }

    // The same where a number is asked for: what is no word is 0.
    pub fn number(self) -> Option<(u32, Rest<'a>)> {
        let (word, rest) = self.next()?;
        Some((word.unwrap_or(0), rest))
    }

    // The number whose low and high words stand next.
    pub fn wide(self) -> Option<(u64, Rest<'a>)> {
        let (low, rest) = self.number()?;
        let (high, rest) = rest.number()?;
        Some((low as u64 + high as u64 * 4294967296, rest))
    }

    // What follows these words.
    pub fn after(self, words: &[u32]) -> Option<Rest<'a>> {
        let bytes = cases::after(self.bytes, words)?;
        Some(Rest {
            bytes,
            ended: self.ended,
        })
    }

    // Whether these words are all that is left, and LF follows.
    pub fn is(self, words: &[u32]) -> bool {
        match self.after(words) {
            Some(rest) => rest.bytes.is_empty() && rest.ended,
            None => false,
        }
    }
}

pub fn low(v: u64) -> u32 {
    (v % 4294967296) as u32
}

pub fn high(v: u64) -> u32 {
    (v / 4294967296) as u32
}

// A record's five words.
pub fn record_words(r: Register) -> [u32; 5] {
    [
        u32::from(r.offset),
        u32::from(r.relative_offset),
        u32::from(r.cap_id),
        u32::from(r.vs_cap_id),
        r.value,
    ]
}

pub fn number_agrees(rest: Rest<'_>, number: Option<u64>) -> bool {
    match number {
        None => rest.is(&[]),
        Some(v) => rest.is(&[low(v), high(v)]),
    }
}

pub fn line_agrees(rest: Rest<'_>, input: &[u8]) -> bool {
    match register::parse_debugfs(input) {
        Ok(Some(r)) => rest.is(&record_words(r)),
        Ok(None) => rest.is(&[]),
        Err(_) => false,
    }
}

pub fn dump_agrees(rest: Rest<'_>, input: &[u8], scratch: &mut [u32], output: &mut [u32]) -> bool {
    match dump::read(input, scratch, output) {
        Ok(n) => match output.get(..n.saturating_mul(4)) {
            Some(words) => rest.is(words),
            None => false,
        },
        Err(_) => false,
    }
}
