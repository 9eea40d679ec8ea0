#![tactic(auto)]

ghost use Rattle.util.specs.Work.{digit_bits};
ghost use Rattle.std.specs.Prelude.{◌≡◌, ◌<◌, ◌≤◌, length};
ghost use Rattle.util.specs.Number.{digit_of, after_prefix, after_plus, number_of, hex_number, decimal_number};
ghost use Rattle.util.specs.Bits.{bits_of};

// The largest values of 16, 32 and 64 bits.
pub const MAX_16: u64 = 0xffff;

pub const MAX_32: u64 = 0xffff_ffff;

pub const MAX_64: u64 = 0xffff_ffff_ffff_ffff;

// Bit b % 64 says whether byte b is a digit: `0` to `9` below 64, `A` to `F` and `a` to `f` above.
const BELOW: u64 = 0x03ff_0000_0000_0000;

const ABOVE: u64 = 0x0000_007e_0000_007e;

// The bits for a byte.
fn digit_bits(b: u8) -> u64
    ensures { result ≡ digit_bits b }
{
    if b < 64 {
        return BELOW;
    }
    if b < 128 {
        return ABOVE;
    }
    0
}

// The value of a digit, hexadecimal in either case; 16 for any other byte. Bits tell which bytes are digits; of tests there are only those of a byte's range in `digit_bits`, since one of a digit's kind would be mispredicted at every other digit.
fn digit(b: u8) -> u64
    ensures { result ≡ digit_of b }
{
    let k = b as u64;
    if (digit_bits(b) >> (k % 64)) % 2 == 1 {
        return k % 16 + 9 * (k / 64);
    }
    16
}

// The text after one `0x`, if it begins with that.
fn after_prefix(s: &[u8]) -> &[u8]
    ensures { result.now ≡ after_prefix s.now }
{
    if s.len() < 2 {
        return s;
    }
    if s[0] != b'0' {
        return s;
    }
    if s[1] != b'x' {
        return s;
    }
    &s[2..]
}

// The text after one `+`, if it begins with that.
fn after_plus(s: &[u8]) -> &[u8]
    ensures { result.now ≡ after_plus s.now }
{
    if s.len() < 1 {
        return s;
    }
    if s[0] != b'+' {
        return s;
    }
    &s[1..]
}

// The number that `s` writes in the base, if it is one of at most `max`; of so few digits that no sum passes 64 bits.
fn short_digits(s: &[u8], base: u64, max: u64) -> Option<u64>
    requires { (0 < base) × (base ≤ 16) × (0 < length s.now) × (length s.now ≤ 15) }
    ensures { result ≡ number_of base max s.now }
{
    let mut v: u64 = 0;
    for &b in s {
        let d = digit(b);
        if base <= d {
            return None;
        }
        v = v * base + d;
    }
    if max < v {
        return None;
    }
    Some(v)
}

// The same of any number of digits. Each digit is tested before it is added, so that no sum passes `max`.
fn long_digits(s: &[u8], base: u64, max: u64) -> Option<u64>
    requires { 0 < base }
    ensures { result ≡ number_of base max s.now }
{
    if s.len() < 1 {
        return None;
    }
    let most = max / base;
    let mut v: u64 = 0;
    for &b in s {
        let d = digit(b);
        if base <= d {
            return None;
        }
        if most < v {
            return None;
        }
        let shifted = v * base;
        if max - shifted < d {
            return None;
        }
        v = shifted + d;
    }
    Some(v)
}

// The same of any text.
fn digits(s: &[u8], base: u64, max: u64) -> Option<u64>
    requires { (0 < base) × (base ≤ 16) }
    ensures { result ≡ number_of base max s.now }
{
    if 15 < s.len() {
        return long_digits(s, base, max);
    }
    if s.len() < 1 {
        return None;
    }
    short_digits(s, base, max)
}

// A hexadecimal number of at most `max`, as the Rust's `parse_hex` reads it at the width whose largest value is `max`.
pub fn parse_hex(s: &[u8], max: u64) -> Option<u64>
    ensures { result ≡ hex_number max s.now }
{
    digits(after_plus(after_prefix(s)), 16, max)
}

// A decimal number of at most `max`, as `str::parse` reads it.
pub fn parse_decimal(s: &[u8], max: u64) -> Option<u64>
    ensures { result ≡ decimal_number max s.now }
{
    digits(after_plus(s), 10, max)
}

// Bits `start` to `end` of a word, as the Rust's `genmask_t` and a shift take them; 0 where `end` is below `start`.
pub fn bits(word: u32, start: u32, end: u32) -> u32
    ensures { result ≡ bits_of word start end }
{
    if 31 < start {
        return 0;
    }
    if end < start {
        return 0;
    }
    let high = word >> start;
    if 31 <= end {
        return high;
    }
    let size = 1u32 << (end + 1 - start);
    high % size
}
