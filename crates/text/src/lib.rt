// The program's text, to survey words.
#![tactic(auto)]

ghost use Rattle.std.specs.Prelude.{◌≡◌, ◌++◌, ◌+◌, ◌%◌, ◌≤◌, length, drop};
ghost use Rattle.usb4.specs.Numbers.{device_kind_number};
ghost use Rattle.markers.specs.Markers.{marker_by};
ghost use Rattle.dump.specs.Dump.{dump_words};
ghost use Rattle.text.specs.Text.{is_usb4, is_regs, path_mark, device_head, adapter_head, device_words, survey_words, TextDone};
ghost use Rattle.text.specs.Work.{sections_from, Stands, Low, next_marker, Skipped, NextLine, PastMark, path_words, body_words, PutAt, marked};

use grammar::MOST_WORDS;
use markers::Mark;
use refusal::Refusal;
use usb4::Kind;

// Words that the small scratch has room for.
const FEW_WORDS: usize = 1024;

// The start of the first marker line from a line's start on, or the end.
fn next_marker(text: &[u8], from: usize) -> usize
    requires { from ≤ length text.now }
    ensures { Skipped text.now from result }
{
    let mut i = from;
    while i < text.len() {
        if text[i] == b'@' {
            return i;
        }
        let end = scan::line_end(text, i);
        if text.len() <= end {
            return text.len();
        }
        i = end + 1;
    }
    i
}

// The place after the line that ends at `end`.
fn after_line(text: &[u8], end: usize) -> usize
    requires { end ≤ length text.now }
    ensures { NextLine text.now end result }
{
    if end < text.len() {
        return end + 1;
    }
    end
}

// The marker that stands at a place; at the end one that says nothing of a head.
fn mark_at(text: &[u8], at: usize) -> Mark
    requires { Stands text.now at }
    ensures { marker_by result ≡ next_marker (sections_from text.now at) }
{
    if text.len() <= at {
        return Mark::Bad;
    }
    let end = scan::line_end(text, at);
    markers::marker(&text[at..end])
}

// The marker after the one at a place, where that is passed; else the place.
fn past_mark(text: &[u8], at: usize, passed: bool) -> usize
    requires { Stands text.now at }
    ensures { PastMark text.now at passed result }
{
    if !passed {
        return at;
    }
    if text.len() <= at {
        return at;
    }
    let end = scan::line_end(text, at);
    next_marker(text, after_line(text, end))
}

// Whether a marker says that its device is USB4.
fn is_usb4(mark: Mark) -> bool
    ensures { result ≡ is_usb4 (marker_by mark) }
{
    matches!(mark, Mark::Usb4)
}

// Whether a marker says that registers were read.
fn is_regs(mark: Mark) -> bool
    ensures { result ≡ is_regs (marker_by mark) }
{
    matches!(mark, Mark::Regs)
}

// An adapter's path dump: read, missing, or neither.
fn path_mark(mark: Mark) -> u32
    ensures { (result ≡ path_mark (marker_by mark)) × (result ≤ 2) }
{
    match mark {
        Mark::Paths => 1,
        Mark::NoPaths => 2,
        _ => 0,
    }
}

// The head word of a device whose next marker stands at a place.
fn device_head(text: &[u8], next: usize, kind: Kind) -> u32
    requires { Stands text.now next }
    ensures { result ≡ device_head (device_kind_number kind) (sections_from text.now next) }
{
    let usb4 = is_usb4(mark_at(text, next));
    let second = past_mark(text, next, usb4);
    let read = is_regs(mark_at(text, second));
    805306368 + u32::from(kind) * 16777216 + 2 * u32::from(read) + u32::from(usb4)
}

// The head word of an adapter whose next marker stands at a place.
fn adapter_head(text: &[u8], next: usize, number: u8) -> u32
    requires { Stands text.now next }
    ensures { result ≡ adapter_head number (sections_from text.now next) }
{
    let read = is_regs(mark_at(text, next));
    let second = past_mark(text, next, read);
    let paths = path_mark(mark_at(text, second));
    1073741824 + 512 * paths + 256 * u32::from(read) + number as u32
}

// Writes a device's group; the next place.
fn put_device(
    text: &[u8],
    next: usize,
    kind: Kind,
    domain: u32,
    route: u64,
    out: &mut [u32],
    k: usize,
) -> usize
    requires { (Stands text.now next) × (k + 4 ≤ length out.old) }
    ensures { PutAt (device_words (device_kind_number kind) domain route (sections_from text.now next)) k out.old result out.new }
{
    out[k] = device_head(text, next, kind);
    out[k + 1] = domain;
    out[k + 2] = (route % 4294967296) as u32;
    out[k + 3] = (route / 4294967296) as u32;
    k + 4
}

// Writes a dump's groups; the next place.
fn put_dump(body: &[u8], scratch: &mut [u32], out: &mut [u32], k: usize) -> usize
    requires { (Low body.now) × (k + length (dump_words body.now) ≤ length out.old) × (length (dump_words body.now) ≤ length scratch.old) }
    ensures { PutAt (dump_words body.now) k out.old result out.new }
{
    let room = body.len().min(scratch.len());
    let Ok(n) = dump::read(body, &mut scratch[..room], &mut out[k..]) else {
        return k;
    };
    k + 4 * n
}

// Gives the heads of register groups bit 16: path space.
fn mark_groups(groups: &mut [u32])
    requires { length groups.old % 4 ≡ 0 }
    ensures { groups.new ≡ marked groups.old }
{
    for i in (0..groups.len()).step_by(4) {
        groups[i] = 1342242816 + groups[i] % 65536;
    }
}

// Writes a path dump's groups; the next place.
fn put_paths(body: &[u8], scratch: &mut [u32], out: &mut [u32], k: usize) -> usize
    requires { (Low body.now) × (k + length (path_words body.now) ≤ length out.old) × (length (path_words body.now) ≤ length scratch.old) }
    ensures { PutAt (path_words body.now) k out.old result out.new }
{
    let r = put_dump(body, scratch, out, k);
    mark_groups(&mut out[k..r]);
    r
}

// Writes the words of a marker line, the lines after it, and what the marker at `next` says; the next place.
fn put_section(
    line: &[u8],
    body: &[u8],
    text: &[u8],
    next: usize,
    scratch: &mut [u32],
    out: &mut [u32],
    k: usize,
) -> usize
    requires { (Stands text.now next) × (Low body.now) × (k + length (body_words line.now body.now (sections_from text.now next)) ≤ length out.old) × (length (body_words line.now body.now (sections_from text.now next)) ≤ length scratch.old) }
    ensures { PutAt (body_words line.now body.now (sections_from text.now next)) k out.old result out.new }
{
    match markers::marker(line) {
        Mark::Router { domain, route } => put_device(
            text,
            next,
            Kind::Router,
            domain,
            route,
            out,
            k,
        ),
        Mark::Xdomain { domain, route } => put_device(
            text,
            next,
            Kind::Xdomain,
            domain,
            route,
            out,
            k,
        ),
        Mark::Regs => put_dump(body, scratch, out, k),
        Mark::Adapter(number) => {
            out[k] = adapter_head(text, next, number);
            k + 1
        }
        Mark::Paths => put_paths(body, scratch, out, k),
        Mark::Usb4 => k,
        Mark::NoPaths => k,
        Mark::Bad => k,
    }
}

// Writes all sections.
fn put_sections(text: &[u8], scratch: &mut [u32], out: &mut [u32])
    requires { (Low text.now) × (length (survey_words (sections_from text.now 0)) ≤ length out.old) × (length (survey_words (sections_from text.now 0)) ≤ length scratch.old) }
    ensures { out.new ≡ survey_words (sections_from text.now 0) ++ drop (length (survey_words (sections_from text.now 0))) out.old }
{
    let mut k: usize = 0;
    let mut at = next_marker(text, 0);
    while at < text.len() {
        let end = scan::line_end(text, at);
        let from = after_line(text, end);
        let next = next_marker(text, from);
        k = put_section(
            &text[at..end],
            &text[from..next],
            text,
            next,
            scratch,
            out,
            k,
        );
        at = next;
    }
}

// The same with a scratch of its own, for any survey: 64 KiB of stack, which most texts needn't pay for.
fn put_long(text: &[u8], output: &mut [u32])
    requires { (Low text.now) × (length (survey_words (sections_from text.now 0)) ≤ length output.old) × (length (survey_words (sections_from text.now 0)) ≤ 16384) }
    ensures { output.new ≡ survey_words (sections_from text.now 0) ++ drop (length (survey_words (sections_from text.now 0))) output.old }
{
    let mut scratch = [0u32; MOST_WORDS];
    put_sections(text, &mut scratch, output);
}

// The same for n survey words: with a small scratch, if they fit it; if not, or where `long` says so, with one for any survey. It calls itself before it calls `put_long`: the compiler puts no large room into the frame of a function that calls itself. Otherwise the room of `put_long` would be in the frame of every text.
fn put_words(text: &[u8], n: usize, long: bool, output: &mut [u32])
    requires { (Low text.now) × (n ≡ length (survey_words (sections_from text.now 0))) × (n ≤ length output.old) × (n ≤ 16384) }
    ensures { output.new ≡ survey_words (sections_from text.now 0) ++ drop (length (survey_words (sections_from text.now 0))) output.old }
{
    if long {
        put_long(text, output);
        return;
    }
    if FEW_WORDS < n {
        put_words(text, n, true, output);
        return;
    }
    let mut scratch = [0u32; FEW_WORDS];
    put_sections(text, &mut scratch, output);
}

// A text to survey words: how many; the words needed, or the text's length where it is too long (2); the place of a byte above 127 (1); or the words made before a line that is wrong, 16,384 for too many (4).
pub fn read(text: &[u8], output: &mut [u32]) -> Result<usize, Refusal>
    ensures { TextDone text.now output.old result output.new }
{
    let n = grammar::check(text)?;
    if output.len() < n {
        return Err(Refusal::Short(n));
    }
    put_words(text, n, false, output);
    Ok(n)
}
