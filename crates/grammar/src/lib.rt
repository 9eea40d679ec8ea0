// Where markers and records of the program's text may stand, and how many survey words they make.
#![tactic(auto)]

ghost use Rattle.std.specs.Prelude.{◌≡◌, ◌≤◌, length};
ghost use Rattle.markers.specs.Markers.{is_marker, marker_by};
ghost use Rattle.grammar.specs.Grammar.{to_usb4, to_regs, to_adapter, to_paths, step_of, in_dump, marker_size, items_of, check_from, check_answer};
ghost use Rattle.grammar.specs.Work.{with_words, advance_of};
ghost use Rattle.refusal.specs.Refusal.{outcome};

use markers::Mark;
use refusal::Refusal;

// The last marker and what came before it: nothing; a device, router or not, and whether `@usb4` followed it; its dump; an adapter; its register dump; its path dump; a path dump that is missing.
#[derive(Clone, Copy)]
pub enum Under {
    Nothing,
    Device(bool),
    WithUsb4(bool),
    DeviceDump,
    Adapter,
    AdapterDump,
    PathDump,
    NoDump,
}

// The same, with the survey words that the line makes.
#[derive(Clone, Copy)]
struct Advance {
    under: Under,
    words: usize,
}

// The program reads no longer text.
pub const MOST_BYTES: usize = 65536;

// A survey has no more words.
pub const MOST_WORDS: usize = 16384;

fn to_usb4(u: Under) -> Option<Under>
    ensures { result ≡ to_usb4 u }
{
    match u {
        Under::Device(router) => Some(Under::WithUsb4(router)),
        Under::Nothing => None,
        Under::WithUsb4(_) => None,
        Under::DeviceDump => None,
        Under::Adapter => None,
        Under::AdapterDump => None,
        Under::PathDump => None,
        Under::NoDump => None,
    }
}

// Registers are read of a router or an adapter.
fn to_regs(u: Under) -> Option<Under>
    ensures { result ≡ to_regs u }
{
    match u {
        Under::Device(router) => {
            if router {
                return Some(Under::DeviceDump);
            }
            None
        }
        Under::WithUsb4(router) => {
            if router {
                return Some(Under::DeviceDump);
            }
            None
        }
        Under::Adapter => Some(Under::AdapterDump),
        Under::Nothing => None,
        Under::DeviceDump => None,
        Under::AdapterDump => None,
        Under::PathDump => None,
        Under::NoDump => None,
    }
}

// An adapter stands under a device.
fn to_adapter(u: Under) -> Option<Under>
    ensures { result ≡ to_adapter u }
{
    match u {
        Under::Nothing => None,
        Under::Device(_) => Some(Under::Adapter),
        Under::WithUsb4(_) => Some(Under::Adapter),
        Under::DeviceDump => Some(Under::Adapter),
        Under::Adapter => Some(Under::Adapter),
        Under::AdapterDump => Some(Under::Adapter),
        Under::PathDump => Some(Under::Adapter),
        Under::NoDump => Some(Under::Adapter),
    }
}

// A path marker, which leads to `next`, follows an adapter or its register dump.
fn to_paths(next: Under, u: Under) -> Option<Under>
    ensures { result ≡ to_paths next u }
{
    match u {
        Under::Adapter => Some(next),
        Under::AdapterDump => Some(next),
        Under::Nothing => None,
        Under::Device(_) => None,
        Under::WithUsb4(_) => None,
        Under::DeviceDump => None,
        Under::PathDump => None,
        Under::NoDump => None,
    }
}

// A record stands in a dump.
fn in_dump(u: Under) -> Option<Under>
    ensures { result ≡ in_dump u }
{
    match u {
        Under::DeviceDump => Some(Under::DeviceDump),
        Under::AdapterDump => Some(Under::AdapterDump),
        Under::PathDump => Some(Under::PathDump),
        Under::Nothing => None,
        Under::Device(_) => None,
        Under::WithUsb4(_) => None,
        Under::Adapter => None,
        Under::NoDump => None,
    }
}

// Where a marker leads.
fn step_of(mark: Mark, u: Under) -> Option<Under>
    ensures { result ≡ step_of (marker_by mark) u }
{
    match mark {
        Mark::Router {
            domain: _,
            route: _,
        } => Some(Under::Device(true)),
        Mark::Xdomain {
            domain: _,
            route: _,
        } => Some(Under::Device(false)),
        Mark::Usb4 => to_usb4(u),
        Mark::Regs => to_regs(u),
        Mark::Adapter(_) => to_adapter(u),
        Mark::Paths => to_paths(Under::PathDump, u),
        Mark::NoPaths => to_paths(Under::NoDump, u),
        Mark::Bad => None,
    }
}

// The survey words that a marker makes.
fn size_of(mark: Mark) -> usize
    ensures { result ≡ marker_size (marker_by mark) }
{
    match mark {
        Mark::Router {
            domain: _,
            route: _,
        } => 4,
        Mark::Xdomain {
            domain: _,
            route: _,
        } => 4,
        Mark::Adapter(_) => 1,
        Mark::Usb4 => 0,
        Mark::Regs => 0,
        Mark::Paths => 0,
        Mark::NoPaths => 0,
        Mark::Bad => 0,
    }
}

// A step with its words.
fn with_words(words: usize, s: Option<Under>) -> Option<Advance>
    ensures { result ≡ with_words words s }
{
    let under = s?;
    Some(Advance { under, words })
}

// Whether a line's first byte is `@`.
fn is_marker(line: &[u8]) -> bool
    ensures { result ≡ is_marker line.now }
{
    if line.len() < 1 {
        return false;
    }
    line[0] == b'@'
}

// Where a line leads.
fn lead(line: &[u8], u: Under) -> Option<Advance>
    ensures { result ≡ advance_of line.now u }
{
    if is_marker(line) {
        let mark = markers::marker(line);
        return with_words(size_of(mark), step_of(mark, u));
    }
    let Ok(_) = register::read_line(line) else {
        return Some(Advance { under: u, words: 0 });
    };
    with_words(4, in_dump(u))
}

// The lines of a text, one after another.
fn check_lines(text: &[u8]) -> Result<usize, Refusal>
    requires { length text.now ≤ 65536 }
    ensures { outcome result ≡ check_from 0 Under.Nothing (items_of text.now) }
{
    let mut u = Under::Nothing;
    let mut made: usize = 0;
    let mut at: usize = 0;
    while at < text.len() {
        let end = scan::line_end(text, at);
        let Some(next) = lead(&text[at..end], u) else {
            return Err(Refusal::Survey(made));
        };
        u = next.under;
        made += next.words;
        at = end + 1;
    }
    Ok(made)
}

// Whether a text is in document 01's grammar, and how many survey words it makes: its length where it is too long (2), the place of a byte above 127 (1), or the words made before a line that is wrong, 16,384 for too many (4).
pub fn check(text: &[u8]) -> Result<usize, Refusal>
    ensures { outcome result ≡ check_answer text.now }
{
    if MOST_BYTES < text.len() {
        return Err(Refusal::Short(text.len()));
    }
    let high = scan::first_high(text);
    if high < text.len() {
        return Err(Refusal::NotAscii(high));
    }
    let n = check_lines(text)?;
    if MOST_WORDS < n {
        return Err(Refusal::Survey(MOST_WORDS));
    }
    Ok(n)
}
