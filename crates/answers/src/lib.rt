// What the exported calls answer, in eight words: a refusal, a number, and the calls on hex numbers and lines.
#![tactic(auto)]

ghost use Rattle.std.specs.Prelude.{◌≡◌, ℕ};
ghost use Rattle.usb4.specs.Numbers.{speed_number};
ghost use Rattle.refusal.specs.Outcome.{value};
ghost use Rattle.refusal.specs.Refusal.{refused_by, outcome};
ghost use Rattle.answers.specs.Said.{said, always, perhaps, one, register_words, hex_of_bits};

use refusal::Refusal;
use register::Register;
use usb4::Speed;

// A refusal's number and values.
pub fn refused(refusal: Refusal) -> [u64; 8]
    ensures { result ≡ said (refused_by refusal) }
{
    let n = refusals::numbers_of(refusal);
    [
        u64::from(n.number),
        n.first as u64,
        n.second as u64,
        0,
        0,
        0,
        0,
        0,
    ]
}

// A result of one number.
pub fn result(n: u64) -> [u64; 8]
    ensures { result ≡ said (value (Some (one n))) }
{
    [0, 1, n, 0, 0, 0, 0, 0]
}

// A hex number of 16, 32 or 64 bits, as a number; none for any other width.
fn hex_of_bits(text: &[u8], bits: u32) -> Option<u64>
    ensures { result ≡ hex_of_bits bits text.now }
{
    if bits == 16 {
        return util::parse_hex(text, util::MAX_16);
    }
    if bits == 32 {
        return util::parse_hex(text, util::MAX_32);
    }
    if bits == 64 {
        return util::parse_hex(text, util::MAX_64);
    }
    None
}

// A hex number of 16, 32 or 64 bits.
pub fn hex(text: &[u8], bits: u32) -> [u64; 8]
    ensures { result ≡ said (perhaps one (value (hex_of_bits bits text.now))) }
{
    match hex_of_bits(text, bits) {
        Some(v) => result(v),
        None => [0; 8],
    }
}

// A line's record, or none.
pub fn line(answer: Result<Option<Register>, Refusal>) -> [u64; 8]
    ensures { result ≡ said (perhaps register_words (outcome answer)) }
{
    match answer {
        Ok(Some(r)) => [
            0,
            1,
            r.offset as u64,
            r.relative_offset as u64,
            r.cap_id as u64,
            r.vs_cap_id as u64,
            r.value as u64,
            0,
        ],
        Ok(None) => [0; 8], // no record
        Err(refusal) => refused(refusal),
    }
}

// A number that an exported call answers.
pub trait Number {
    ghost value: { Self → ℕ };

    fn number(self) -> u64
        ensures { result ≡ value self };
}

impl Number for usize {
    ghost value = { λ n. n };

    fn number(self) -> u64 {
        self as u64
    }
}

impl Number for u32 {
    ghost value = { λ n. n };

    fn number(self) -> u64 {
        u64::from(self)
    }
}

impl Number for Speed {
    ghost value = { speed_number };

    fn number(self) -> u64 {
        u64::from(u32::from(self))
    }
}

// A number, or a refusal.
#[tactic(auto, unfolding(crate::specs::Said::said, crate::specs::Said::padded, crate::specs::Said::always, refusal::specs::Outcome::bind))]
pub fn always<N: Number>(answer: Result<N, Refusal>) -> [u64; 8]
    ensures { result ≡ said (always (λ n. one (N.value n)) (outcome answer)) }
{
    match answer {
        Ok(n) => result(n.number()),
        Err(refusal) => refused(refusal),
    }
}

// A number that may be none or absent, or a refusal.
#[tactic(auto, unfolding(crate::specs::Said::said, crate::specs::Said::padded, crate::specs::Said::perhaps, refusal::specs::Outcome::bind))]
pub fn perhaps<N: Number>(answer: Result<Option<N>, Refusal>) -> [u64; 8]
    ensures { result ≡ said (perhaps (λ n. one (N.value n)) (outcome answer)) }
{
    match answer {
        Ok(Some(n)) => result(n.number()),
        Ok(None) => [0; 8], // no number
        Err(refusal) => refused(refusal),
    }
}
