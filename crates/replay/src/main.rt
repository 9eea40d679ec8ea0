// Replays the cases of data/, of reading numbers, lines, dumps, descriptions and survey words and of routes, and writes a line of totals for each file: cases, how many agree and
// differ, and the line of the first that differs. One answer in each file is wrong on purpose, so
// each line of totals says `differ 1` and where.
#![tactic(auto)]

mod answer;
mod names;
mod routes;
mod rule;
mod surveys;

use answer::Rest;
use cases::Compare;
use std::io::Write;
use std::rt::Files;
use std::{fs, io};

#[derive(Clone, Copy)]
enum Kind {
    Line,
    Dump,
    Hex(u64),
    Decimal(u64),
    Rule,
}

// A file's cases: each by itself, routes, survey words, or questions about sets of descriptions.
#[derive(Clone, Copy)]
enum Cases {
    Each(Kind),
    Routes,
    Beneath,
    Surveys,
    Groups,
    Named,
}

// What a file's cases are; the set of descriptions that a case about names goes by, and how many words it has.
#[derive(Drop)]
struct InHand {
    cases: Cases,
    set: [u32; 16400],
    held: usize,
}

fn input_agrees(
    kind: Kind,
    rest: Rest<'_>,
    input: &[u8],
    scratch: &mut [u32],
    output: &mut [u32],
) -> bool {
    match kind {
        Kind::Line => answer::line_agrees(rest, input),
        Kind::Dump => answer::dump_agrees(rest, input, scratch, output),
        Kind::Hex(max) => answer::number_agrees(rest, util::parse_hex(input, max)),
        Kind::Decimal(max) => answer::number_agrees(rest, util::parse_decimal(input, max)),
        Kind::Rule => rule::rule_agrees(rest, input, scratch, output),
    }
}

// A case that the buffers are too small for doesn't agree.
fn each_agrees(kind: Kind, input: &[u8], rest: Rest<'_>) -> bool {
    let mut bytes = [0u8; 32768];
    let mut scratch = [0u32; 1024];
    let mut output = [0u32; 1024];
    match cases::input(input, &mut bytes) {
        Some(n) => input_agrees(kind, rest, &bytes[..n], &mut scratch, &mut output),
        None => false,
    }
}

impl InHand {
    fn rest_agrees(&mut self, input: &[u8], rest: Rest<'_>) -> bool {
        match self.cases {
            Cases::Each(kind) => each_agrees(kind, input, rest),
            Cases::Routes => routes::route_agrees(rest).unwrap_or(false),
            Cases::Beneath => routes::beneath_agrees(rest).unwrap_or(false),
            Cases::Surveys => surveys::survey_agrees(rest, &mut self.set).unwrap_or(false),
            Cases::Groups => surveys::group_agrees(rest, &mut self.set).unwrap_or(false),
            Cases::Named => names::name_agrees(input, rest, &mut self.set, &mut self.held),
        }
    }
}

impl Compare for InHand {
    fn agrees(&mut self, line: &[u8], ended: bool) -> bool {
        // The input ends where the first token does.
        match line.split_at_checked(scan::token(line, 0).end) {
            Some((input, bytes)) => self.rest_agrees(input, Rest { bytes, ended }),
            None => false,
        }
    }
}

// The name is written before the file is opened, so that it stands there whatever becomes of that.
fn replay(rt: &(impl Files + Print), name: &str, cases: Cases) -> io::Result<()> {
    let mut of = InHand {
        cases,
        set: [0; 16400],
        held: 0,
    };
    let mut to = io::writer(rt);
    write!(to, "{name}")?;
    cases::replay("", fs::open(rt, name), &mut of, &mut to)
}

fn main(rt: HostRuntime) -> io::Result<()> {
    replay(&rt, "lines", Cases::Each(Kind::Line))?;
    replay(&rt, "hex16", Cases::Each(Kind::Hex(65535)))?;
    replay(&rt, "hex32", Cases::Each(Kind::Hex(4294967295)))?;
    replay(&rt, "hex64", Cases::Each(Kind::Hex(18446744073709551615)))?;
    replay(&rt, "dec16", Cases::Each(Kind::Decimal(65535)))?;
    replay(&rt, "dec32", Cases::Each(Kind::Decimal(4294967295)))?;
    replay(&rt, "dumps", Cases::Each(Kind::Dump))?;
    replay(&rt, "rules", Cases::Each(Kind::Rule))?;
    replay(&rt, "names", Cases::Named)?;
    replay(&rt, "places", Cases::Named)?;
    replay(&rt, "routes", Cases::Routes)?;
    replay(&rt, "beneath", Cases::Beneath)?;
    replay(&rt, "surveys", Cases::Surveys)?;
    replay(&rt, "groups", Cases::Groups)
}
