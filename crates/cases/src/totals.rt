// How many cases agree, and what is printed of a file.
ghost use Rattle.std.specs.Prelude.{ℕ, Bool, List, ⊤, ◌≡◌, ◌≤◌, ◌<◌, length, IfOk, IfErr, OnOk};
ghost use Rattle.std.specs.Io.KnownBytes.{Appends};
ghost use Rattle.scan.specs.Scan.{lines};
ghost use Rattle.cases.specs.Cases.{no_cases, one_more, Counts, totals_line, missing_line, Replayed};

use std::io;
use std::io::{Read, Write};

// A program that compares answers, with what it keeps from case to case.
pub trait Compare {
    // What it may answer of a line, which LF ends or not, and what it keeps then; by default nothing is said of it.
    ghost answers: { Self → List ℕ → Bool → Bool → Self → Type 0 } = { λ before line ended agrees after. ⊤ };

    // Whether the case that the line holds agrees. The last line of a file may have no LF.
    fn agrees(&mut self, line: &[u8], ended: bool) -> bool
        ensures { answers self.old line.now ended result self.new };
}

// `first` is the line of the first case that differs, from 1 on; 0 where all agree.
#[derive(Clone, Copy)]
struct Totals {
    cases: usize,
    differ: usize,
    first: usize,
}

// The totals with one case more.
fn counted(t: Totals, agrees: bool) -> Totals
    requires { (t.differ ≤ t.cases) × (t.cases < 1000000) }
    ensures { result ≡ one_more t agrees }
{
    let cases = t.cases + 1;
    if agrees {
        return Totals { cases, ..t };
    }
    let first = if t.differ == 0 { cases } else { t.first };
    Totals {
        cases,
        differ: t.differ + 1,
        first,
    }
}

fn count<C: Compare>(text: &[u8], of: &mut C) -> Totals
    requires { length text.now < 1000000 }
    ensures counts { Counts C.answers of.old (lines text.now) (length text.now) no_cases of.new result }
    ensures differ { result.differ ≤ result.cases }
{
    let mut t = Totals {
        cases: 0,
        differ: 0,
        first: 0,
    };
    let mut start = 0;
    while start < text.len() {
        let end = scan::line_end(text, start);
        t = counted(t, of.agrees(&text[start..end], end < text.len()));
        start = end + 1;
    }
    t
}

fn print<W: Write>(name: &str, t: Totals, to: &mut W) -> io::Result<()>
    requires { t.differ ≤ t.cases }
    ensures { OnOk result (Appends (W.contents to.old) (W.contents to.new) (totals_line name.now t)) }
{
    let agree = t.cases - t.differ;
    write!(
        to,
        "{name} {} agree {agree} differ {} at {}\n",
        t.cases, t.differ, t.first
    )
}

// What is written of a file that was opened. It stays a call: its room is cleared each time, 1,000,000 bytes, and a file that is missing needs none.
#[inline(never)]
fn replay_opened<R: Read, W: Write, C: Compare>(
    name: &str,
    file: &mut R,
    of: &mut C,
    to: &mut W,
) -> io::Result<()>
    ensures { OnOk result (Replayed C.answers of.old of.new name.now (R.remaining file.old) (Appends (W.contents to.old) (W.contents to.new))) }
{
    let mut text = input::room::<1000000>();
    let n = input::read_full(file, &mut text)?;
    if n == 1000000 {
        return write!(to, "{name} too long\n");
    }
    let t = count(&text[..n], of);
    print(name, t, to)
}

// Compares the cases of a file and writes a line of totals: cases, how many agree and differ, and the line of the first that differs. A file that is missing or too
// long says so instead.
pub fn replay<R: Read + Drop, W: Write, C: Compare>(
    name: &str,
    file: io::Result<R>,
    of: &mut C,
    to: &mut W,
) -> io::Result<()>
    ensures missing { IfErr file (λ e. OnOk result (Appends (W.contents to.old) (W.contents to.new) (missing_line name.now)) × (of.new ≡ of.old)) }
    ensures found { IfOk file (λ f. OnOk result (Replayed C.answers of.old of.new name.now (R.remaining f) (Appends (W.contents to.old) (W.contents to.new)))) }
{
    let Ok(mut file) = file else {
        return write!(to, "{name} missing\n");
    };
    replay_opened(name, &mut file, of, to)
}
