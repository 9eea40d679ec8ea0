// The lines of a text, read by their columns where they have those that the kernel prints, else by their tokens.
#![tactic(auto)]

ghost use Rattle.std.specs.Prelude.{◌≡◌, true, [], ◌+◌, ◌<◌, ◌≤◌, length, get_or, take, drop};
ghost use Rattle.columns.specs.Lines.{MetAt};
ghost use Rattle.columns.specs.Work.{no_digits, packed, Lanes, Joined, Spells, Digits, Parted, Prefix, Run, Ends, FrontsAt, ColumnsAt, QuickAt};

use register::{Register, Skip};
use util::{MAX_16, MAX_32};

// What a line of a text is, and where it ends: at LF, or at the end of the text.
#[derive(Clone, Copy)]
pub struct LineAt {
    pub met: Result<Register, Skip>,
    pub end: usize,
}

// The first three numbers of a line in the columns that the kernel prints, and one of two digits that stands elsewhere.
#[derive(Clone, Copy)]
struct Front {
    offset: u16,
    relative_offset: u16,
    cap_id: u16,
    vs_cap_id: u16,
}

// What stands for eight bytes that are not all digits: more than eight digits come to.
const NO_DIGITS: u64 = 0x1_0000_0000;

// A byte of 1, 6, 15 and 48 eight times.
const ONES: u64 = 0x0101_0101_0101_0101;

const SIXES: u64 = 0x0606_0606_0606_0606;

const FIFTEENS: u64 = 0x0f0f_0f0f_0f0f_0f0f;

const ZERO_DIGITS: u64 = 0x3030_3030_3030_3030;

// Eight bytes as one number, the first lowest.
fn word(a: u8, b: u8, c: u8, d: u8, e: u8, f: u8, g: u8, h: u8) -> u64
    ensures { result ≡ packed a b c d e f g h }
{
    let low = a as u64 + b as u64 * 0x100 + c as u64 * 0x1_0000 + d as u64 * 0x100_0000;
    let high = e as u64 + f as u64 * 0x100 + g as u64 * 0x1_0000 + h as u64 * 0x100_0000;
    low + high * 0x1_0000_0000
}

// Eight numbers below 16, one a byte, as digits of one number: the lowest byte is the first digit.
fn joined(x: u64) -> u64
    requires { Lanes 15 x }
    ensures { Joined x result }
{
    let pairs = x * 16 + x / 256;
    let high = pairs % 256 * 256 + pairs / 0x1_0000 % 256;
    let low = pairs / 0x1_0000_0000 % 256 * 256 + pairs / 0x1_0000_0000_0000 % 256;
    high * 65536 + low
}

// The number that eight bytes write, as digits in lower case. They are taken together: x has a guess at each digit, whatever the bytes are, and l has 1 for each letter; then the bytes are compared with what such digits are written as.
fn hex(w: u64) -> u64
    ensures { result < no_digits → Spells w result }
{
    let l = (w / 64) & ONES;
    let x = ((w & FIFTEENS) + 9 * l) & FIFTEENS;
    if x + ZERO_DIGITS + 39 * l != w {
        return NO_DIGITS;
    }
    let z = (x + SIXES) & FIFTEENS;
    if z + 16 * l != x + SIXES {
        return NO_DIGITS;
    }
    joined(x)
}

// The number that eight digits write.
fn eight_digits(s: &[u8], i: usize) -> u64
    requires { i + 8 ≤ length s.now }
    ensures { result < no_digits → Digits (take 8 (drop i s.now)) result }
{
    hex(word(
        s[i],
        s[i + 1],
        s[i + 2],
        s[i + 3],
        s[i + 4],
        s[i + 5],
        s[i + 6],
        s[i + 7],
    ))
}

// The numbers that four digits, two and two more write, as one.
fn parted_digits(s: &[u8], i: usize, j: usize, k: usize) -> u64
    requires { (i + 4 ≤ length s.now) × (j + 2 ≤ length s.now) × (k + 2 ≤ length s.now) }
    ensures { result < no_digits → Parted s.now i j k result }
{
    hex(word(
        s[i],
        s[i + 1],
        s[i + 2],
        s[i + 3],
        s[j],
        s[j + 1],
        s[k],
        s[k + 1],
    ))
}

// Whether `0x` stands there.
fn prefixed(s: &[u8], i: usize) -> bool
    requires { i + 2 ≤ length s.now }
    ensures { result ≡ true → Prefix s.now i }
{
    if s[i] != b'0' {
        return false;
    }
    s[i + 1] == b'x'
}

// Whether a space and `0x` stand there.
fn next_prefixed(s: &[u8], i: usize) -> bool
    requires { i + 3 ≤ length s.now }
    ensures { result ≡ true → (get_or s.now i 0 ≡ 32) × Prefix s.now (i + 1) }
{
    if s[i] != b' ' {
        return false;
    }
    prefixed(s, i + 1)
}

// Where a number stands that at most three spaces pad.
fn padded(s: &[u8], i: usize) -> usize
    requires { i + 4 ≤ length s.now }
    ensures { (result ≤ i + 3) × Run s.now i result [] }
{
    if s[i] != b' ' {
        return i;
    }
    if s[i + 1] != b' ' {
        return i + 1;
    }
    if s[i + 2] != b' ' {
        return i + 2;
    }
    i + 3
}

// `0xhhhh dddd 0xhh`, which a space follows, and two digits at another place: the hexadecimal ones are read together.
fn read_front(s: &[u8], i: usize, k: usize) -> Option<Front>
    requires { (i + 17 ≤ length s.now) × (k + 2 ≤ length s.now) × (get_or s.now (i + 16) 0 ≡ 32) }
    ensures { FrontsAt s.now i k result }
{
    if !prefixed(s, i) {
        return None;
    }
    if s[i + 6] != b' ' {
        return None;
    }
    if !next_prefixed(s, i + 11) {
        return None;
    }
    let ids = parted_digits(s, i + 2, i + 14, k);
    if MAX_32 < ids {
        return None;
    }
    let start = padded(s, i + 7);
    let Some(relative) = util::parse_decimal(&s[start..i + 11], MAX_16) else {
        return None;
    };
    Some(Front {
        offset: (ids / 65536) as u16,
        relative_offset: relative as u16,
        cap_id: (ids / 256 % 256) as u16,
        vs_cap_id: (ids % 256) as u16,
    })
}

// `0xhhhh dddd 0xhh 0xhh 0xhhhhhhhh`, a line of 32 bytes: offset, relative offset, cap id, vs id, value.
fn five_columns(s: &[u8], i: usize) -> Option<Register>
    requires { Ends s.now i 32 }
    ensures { ColumnsAt s.now i 32 result }
{
    if !next_prefixed(s, i + 16) {
        return None;
    }
    if !next_prefixed(s, i + 21) {
        return None;
    }
    let Some(f) = read_front(s, i, i + 19) else {
        return None;
    };
    let value = eight_digits(s, i + 24);
    if MAX_32 < value {
        return None;
    }
    Some(Register {
        offset: f.offset,
        relative_offset: f.relative_offset,
        cap_id: f.cap_id,
        vs_cap_id: f.vs_cap_id,
        value: value as u32,
    })
}

// `0xhhhh dddd 0xhh 0xhhhhhhhh`, a line of 27 bytes: offset, relative offset, one that is ignored, value.
fn four_columns(s: &[u8], i: usize) -> Option<Register>
    requires { Ends s.now i 27 }
    ensures { ColumnsAt s.now i 27 result }
{
    if !next_prefixed(s, i + 16) {
        return None;
    }
    let Some(f) = read_front(s, i, i + 14) else {
        return None;
    };
    let value = eight_digits(s, i + 19);
    if MAX_32 < value {
        return None;
    }
    Some(Register {
        offset: f.offset,
        relative_offset: f.relative_offset,
        cap_id: 0,
        vs_cap_id: 0,
        value: value as u32,
    })
}

// Whether LF or the end of the text stands `n` bytes after place `i`.
fn ends(s: &[u8], i: usize, n: usize) -> bool
    ensures { result ≡ true → Ends s.now i n }
{
    if s.len() < n {
        return false;
    }
    let last = s.len() - n;
    if last < i {
        return false;
    }
    if last == i {
        return true;
    }
    s[i + n] == 10
}

// A line in the columns that the kernel prints.
fn by_columns(s: &[u8], at: usize) -> Option<LineAt>
    ensures { QuickAt s.now at result }
{
    if ends(s, at, 32) {
        let Some(r) = five_columns(s, at) else {
            return None;
        };
        return Some(LineAt {
            met: Ok(r),
            end: at + 32,
        });
    }
    if ends(s, at, 27) {
        let Some(r) = four_columns(s, at) else {
            return None;
        };
        return Some(LineAt {
            met: Ok(r),
            end: at + 27,
        });
    }
    None
}

// Any line.
fn by_tokens(s: &[u8], at: usize) -> LineAt
    ensures { MetAt s.now at result }
{
    let end = scan::line_end(s, at);
    if s.len() < end {
        return LineAt {
            met: Err(Skip::Few),
            end,
        };
    }
    let met = register::read_line(&s[at..end]);
    LineAt { met, end }
}

// The line that begins at a place of a text, for callers that have looked for bytes above 127 themselves.
pub fn read_at(s: &[u8], at: usize) -> LineAt
    ensures { MetAt s.now at result }
{
    let Some(l) = by_columns(s, at) else {
        return by_tokens(s, at);
    };
    l
}
