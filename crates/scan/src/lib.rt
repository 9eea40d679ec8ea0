#![tactic(auto)]

ghost use Rattle.std.specs.Prelude.{ℕ, Bool, ◌≡◌, max};
ghost use Rattle.std.specs.List.{fold};
ghost use Rattle.scan.specs.Scan.{is_space, is_line_feed, is_high, place_from, TokenAt};
ghost use Rattle.scan.specs.Work.{Tests};

// A part of a text, and the place in the text where it ends.
#[derive(Clone, Copy)]
pub struct Part<'a> {
    pub text: &'a [u8],
    pub end: usize,
}

// Space, tab, LF, FF, CR.
fn is_space(b: u8) -> bool
    ensures { result ≡ is_space b }
{
    if 32 < b {
        return false;
    }
    if b == 9 {
        return true;
    }
    if b == 10 {
        return true;
    }
    if b == 12 {
        return true;
    }
    if b == 13 {
        return true;
    }
    b == 32
}

// The first place from `at` on that holds a byte that `sought` takes, or the end; `at` itself past the end.
fn place<F: Fn(u8) -> bool>(s: &[u8], at: usize, sought: F) -> usize
    requires { F.IsAlwaysCallable sought }
    ensures { (p : ℕ → Bool) → Tests (F.post sought) p → result ≡ place_from p s.now at }
{
    let mut i = at;
    // As a for, over a range or over the rest of the slice, a line that is read by its tokens took a quarter longer.
    while i < s.len() {
        if sought(s[i]) {
            return i;
        }
        i += 1;
    }
    i
}

// The first token from `at` on; empty where there is none.
// No Option, and its bytes come with it: of a line of five tokens `register::read_line` takes some 4 % more instructions with a return after each token that is missing, and 11 % more where parts are cut out by their places later and so tested again.
pub fn token(s: &[u8], at: usize) -> Part<'_>
    ensures { TokenAt s.now at result }
{
    // Apart, since lines of few tokens took a quarter longer where each that is missing was looked for.
    if s.len() <= at {
        return Part {
            text: &s[..0],
            end: at,
        };
    }
    let start = place(s, at, |b| !is_space(b));
    let stop = place(s, start, is_space);
    let text = &s[start..stop];
    Part { text, end: stop }
}

// The first place from `at` on that holds LF, or the end; `at` itself past the end.
pub fn line_end(s: &[u8], at: usize) -> usize
    ensures { result ≡ place_from is_line_feed s.now at }
{
    place(s, at, |b| b == 10)
}

// The largest byte, or 0: one pass that never stops early, so that it takes many bytes at a time.
fn largest(s: &[u8]) -> u8
    ensures { result ≡ fold max 0 s.now }
{
    s.iter().fold(0, |top, b| top.max(*b))
}

// The place of the first byte above 127, or the length.
pub fn first_high(s: &[u8]) -> usize
    ensures { result ≡ place_from is_high s.now 0 }
{
    if largest(s) < 128 {
        return s.len();
    }
    place(s, 0, |b| 127 < b)
}
