// Whether the calls on a survey answer what the words of a case say. oracle/make-loads says what questions and answers are.
use crate::lists::{after_discovery, discovery_refuses};
use crate::starts::{after_walk, walk_refuses};
use crate::words::{after, number, refuses, value};
use acceptance::Acceptance;
use adapter::{EntryOut, Part};
use adapters::AdapterInfo;
use devices::DeviceInfo;
use refusal::Site;
use tables::Stand;

// A survey, and the descriptions that it goes by.
#[derive(Clone, Copy)]
pub struct Survey<'a> {
    pub descriptions: &'a [u32],
    pub words: &'a [u32],
}

// Two numbers as one value; more than any value where the second has no room.
fn pair(first: usize, second: usize, unit: usize) -> [u32; 1] {
    if unit <= second {
        return [value(u64::MAX)];
    }
    [value(
        (first as u64)
            .saturating_mul(unit as u64)
            .saturating_add(second as u64),
    )]
}

fn accepted_words(counts: Acceptance) -> [u32; 1] {
    pair(counts.devices, counts.entries, 16384)
}

fn part_words(part: Part) -> [u32; 1] {
    pair(part.start, part.end, 4096)
}

fn entry_words(entry: EntryOut) -> [u32; 1] {
    [value(entry.out_adapter as u64 * 65536 + entry.out_hop as u64)]
}

fn low(v: u64) -> u32 {
    (v % 4294967296) as u32
}

fn high(v: u64) -> u32 {
    (v / 4294967296) as u32
}

fn route_words(v: u64) -> [u32; 3] {
    [536870912, low(v), high(v)]
}

fn device_words(d: DeviceInfo) -> [u32; 4] {
    let marks = u32::from(d.kind) as u64 * 256 + d.usb4 as u64 * 16 + d.depth as u64;
    [
        low(805306368 + marks),
        d.domain,
        low(d.route),
        high(d.route),
    ]
}

fn adapter_words(a: AdapterInfo) -> [u32; 2] {
    let codes = u32::from(a.kind) as u64 + u32::from(a.state) as u64 * 16;
    let flags = a.lane0 as u64 * 256 + a.lane1 as u64 * 512 + a.enabled as u64 * 1024;
    let least = match a.min_hop {
        Some(n) => value(n as u64),
        None => 0,
    };
    [value(codes + flags), least]
}

fn after_accepted<'a>(rest: &'a [u8], of: Survey<'_>) -> Option<&'a [u8]> {
    after(
        rest,
        acceptance::accepted(of.descriptions, of.words).map(|a| Some(accepted_words(a))),
    )
}

fn after_device<'a>(rest: &'a [u8], of: Survey<'_>, place: usize) -> Option<&'a [u8]> {
    let device = devices::device(of.descriptions, of.words, place);
    let upstream = devices::upstream_adapter(of.descriptions, of.words, place);
    let parent = parents::parent_from(of.descriptions, of.words, place);
    let rest = after(rest, device.map(|i| Some(device_words(i))))?;
    let rest = after(rest, upstream.map(|n| n.map(|n| [value(n as u64)])))?;
    after(rest, parent.map(|p| p.map(|p| [value(p as u64)])))
}

fn after_cap<'a>(rest: &'a [u8], of: Survey<'_>, site: Site, cap: u32) -> Option<&'a [u8]> {
    let found = capabilities::capability(of.descriptions, of.words, site, cap);
    after(rest, found.map(|part| part.map(part_words)))
}

fn after_adapter<'a>(rest: &'a [u8], of: Survey<'_>, site: Site) -> Option<&'a [u8]> {
    let adapter = adapters::adapter(of.descriptions, of.words, site);
    let speed = adapters::link_speed(of.descriptions, of.words, site);
    let most = adapters::max_hop(of.descriptions, of.words, site);
    let up = routing::upstream_route(of.descriptions, of.words, site);
    let down = routing::downstream_route(of.descriptions, of.words, site);
    let rest = after(rest, adapter.map(|a| Some(adapter_words(a))))?;
    let rest = after(rest, speed.map(|s| Some([value(u32::from(s) as u64)])))?;
    let rest = after(rest, most.map(|h| h.map(|h| [value(h as u64)])))?;
    let rest = after_cap(rest, of, site, 1)?;
    let rest = after_cap(rest, of, site, 4)?;
    let rest = after_cap(rest, of, site, 6)?;
    let rest = after(rest, up.map(|r| r.map(route_words)))?;
    after(rest, down.map(|r| r.map(route_words)))
}

fn after_entry<'a>(rest: &'a [u8], of: Survey<'_>, site: Site, hop: u16) -> Option<&'a [u8]> {
    let stand = Stand {
        place: site.place,
        adapter: site.adapter,
        hop_id: hop,
    };
    let found = entries::path(of.descriptions, of.words, stand);
    after(rest, found.map(|entry| entry.map(entry_words)))
}

// Whether each call on devices is refused with that word.
fn devices_refuse(of: Survey<'_>, site: Site, word: u32) -> bool {
    refuses(acceptance::accepted(of.descriptions, of.words), word)
        && refuses(devices::device(of.descriptions, of.words, site.place), word)
        && refuses(
            devices::upstream_adapter(of.descriptions, of.words, site.place),
            word,
        )
        && refuses(
            parents::parent_from(of.descriptions, of.words, site.place),
            word,
        )
        && refuses(
            routing::upstream_route(of.descriptions, of.words, site),
            word,
        )
        && refuses(
            routing::downstream_route(of.descriptions, of.words, site),
            word,
        )
}

// Whether each call on adapters is.
fn adapters_refuse(of: Survey<'_>, site: Site, word: u32) -> bool {
    let stand = Stand {
        place: site.place,
        adapter: site.adapter,
        hop_id: 8,
    };
    refuses(adapters::adapter(of.descriptions, of.words, site), word)
        && refuses(adapters::link_speed(of.descriptions, of.words, site), word)
        && refuses(adapters::max_hop(of.descriptions, of.words, site), word)
        && refuses(
            capabilities::capability(of.descriptions, of.words, site, 4),
            word,
        )
        && refuses(entries::path(of.descriptions, of.words, stand), word)
}

// Every call gives the refusal that stands next.
fn after_every<'a>(rest: &'a [u8], of: Survey<'_>, site: Site) -> Option<&'a [u8]> {
    let (word, rest) = number(rest)?;
    if devices_refuse(of, site, word)
        && adapters_refuse(of, site, word)
        && walk_refuses(of, site, word)
        && discovery_refuses(of, site, word)
    {
        Some(rest)
    } else {
        None
    }
}

// What follows the question and its answers.
fn after_question<'a>(rest: &'a [u8], of: Survey<'_>) -> Option<&'a [u8]> {
    let (question, rest) = number(rest)?;
    let site = Site {
        place: (question / 256 % 1048576) as usize,
        adapter: (question % 256) as u8,
    };
    match question / 268435456 {
        0 => after_accepted(rest, of),
        1 => after_device(rest, of, site.place),
        2 => after_adapter(rest, of, site),
        3 => {
            let (hop, rest) = number(rest)?;
            after_entry(rest, of, site, (hop % 65536) as u16)
        }
        4 => {
            let (cap, rest) = number(rest)?;
            after_cap(rest, of, site, cap)
        }
        5 => after_every(rest, of, site),
        6 => after_walk(rest, of, site),
        7 => after_discovery(rest, of, site),
        _ => None,
    }
}

// Whether all questions have their answers. Each takes nine bytes at least, so there are at most as many as bytes: as `while`, each call would want a contract that what follows is shorter.
fn answers_agree(questions: &[u8], of: Survey<'_>) -> bool {
    let mut rest = questions;
    for _ in 0..questions.len() {
        if rest.is_empty() {
            return true;
        }
        match after_question(rest, of) {
            Some(next) => rest = next,
            None => return false,
        }
    }
    rest.is_empty()
}

// The words say how long questions and answers are; then come these, and the survey.
pub fn survey_agrees(rest: &[u8], descriptions: &[u32]) -> Option<bool> {
    let (size, rest) = cases::next(rest)?;
    let (questions, list) = rest.split_at_checked((size? as usize).saturating_mul(9))?;
    let mut survey = [0u32; 16400];
    let n = cases::listed(list, &mut survey)?;
    let words = &survey[..n];
    let of = Survey {
        descriptions,
        words,
    };
    Some(answers_agree(questions, of))
}
