// Replays the texts of data/ by the calls of the program `tunnels` and writes a line of totals for each file: cases, how many agree and differ, and the
// line of the first that differs. One answer in each file is wrong on purpose, so each line of totals says `differ 1` and where.
#![tactic(auto)]

mod answer;

use cases::Compare;
use std::io::Write;
use std::rt::Files;
use std::{fs, io};

// A case is a text as hex pairs, a blank, and what is printed as hex pairs.
#[derive(Drop)]
struct Texts;

fn text_agrees(text: &[u8], printed: &[u8]) -> bool {
    // As much as the program reads.
    let mut bytes = input::room::<65537>();
    match cases::input(text, &mut bytes) {
        Some(n) => answer::is_printed(printed, &bytes[..n]),
        None => false,
    }
}

fn line_agrees(line: &[u8]) -> Option<bool> {
    let blank = line.iter().position(|b| *b == b' ')?;
    let (text, rest) = line.split_at_checked(blank)?;
    Some(text_agrees(text, rest.get(1..)?))
}

impl Compare for Texts {
    fn agrees(&mut self, line: &[u8], _ended: bool) -> bool {
        line_agrees(line).unwrap_or(false)
    }
}

// The name is written before the file is opened, so that it stands there whatever becomes of that.
fn replay(rt: &(impl Files + Print), name: &str) -> io::Result<()> {
    let mut to = io::writer(rt);
    write!(to, "{name}")?;
    cases::replay("", fs::open(rt, name), &mut Texts, &mut to)
}

fn main(rt: HostRuntime) -> io::Result<()> {
    replay(&rt, "texts")?;
    replay(&rt, "other-texts")?;
    replay(&rt, "text-rules")?;
    replay(&rt, "text-limits")
}
