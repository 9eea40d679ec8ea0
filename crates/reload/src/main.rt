// Replays the cases of data/, of surveys loaded, walks and discoveries, as `replay` does those of reading: a line of totals for each
// file, with cases, how many agree and differ, and the line of the first that differs. One answer in each file is wrong on purpose, so
// each line of totals says `differ 1` and where.
#![tactic(auto)]

mod lists;
mod loads;
mod starts;
mod words;

use cases::Compare;
use std::io::Write;
use std::rt::Files;
use std::{fs, io};

// The set of descriptions that surveys go by, and how many words it has; none where the last one had no room.
#[derive(Drop)]
struct InHand {
    set: [u32; 16400],
    held: Option<usize>,
}

impl InHand {
    fn in_hand(&self) -> Option<&[u32]> {
        self.set.get(..self.held?)
    }

    // The case's kind stands first: 0 a set of descriptions, any other a survey that goes by the set in hand.
    fn rest_agrees(&mut self, rest: &[u8]) -> Option<bool> {
        let (kind, rest) = cases::next(rest)?;
        if kind == Some(0) {
            self.held = cases::listed(rest, &mut self.set);
            return Some(self.held.is_some());
        }
        loads::survey_agrees(rest, self.in_hand()?)
    }
}

impl Compare for InHand {
    // The words begin where the first token ends; no case asks for what follows its words.
    fn agrees(&mut self, line: &[u8], _ended: bool) -> bool {
        match line.get(scan::token(line, 0).end..) {
            Some(rest) => self.rest_agrees(rest).unwrap_or(false),
            None => false,
        }
    }
}

// The name is written before the file is opened, so that it stands there whatever becomes of that.
fn replay(rt: &(impl Files + Print), name: &str) -> io::Result<()> {
    let mut of = InHand {
        set: [0; 16400],
        held: Some(0),
    };
    let mut to = io::writer(rt);
    write!(to, "{name}")?;
    cases::replay("", fs::open(rt, name), &mut of, &mut to)
}

fn main(rt: HostRuntime) -> io::Result<()> {
    replay(&rt, "loads")?;
    replay(&rt, "other-loads")?;
    replay(&rt, "load-rules")?;
    replay(&rt, "walks")?;
    replay(&rt, "walk-rules")?;
    replay(&rt, "discoveries")?;
    replay(&rt, "discovery-rules")
}
