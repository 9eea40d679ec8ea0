// The file `rules`: what the Rust doesn't say. The first word is the call, 0 the line reader, 1 the
// dump reader, 2 the hex reader, 3 the decimal reader, 4 any of these on a long input;
// oracle/make-rules says what follows each.
use crate::answer::{Rest, low, number_agrees, record_words};
use refusal::Refusal;

pub fn rule_agrees(rest: Rest<'_>, input: &[u8], scratch: &mut [u32], output: &mut [u32]) -> bool {
    match rest.next() {
        Some((Some(4), rule)) => {
            let mut text = input::room::<1000000>();
            long_rule(rule, input, &mut text, scratch, output).unwrap_or(false)
        }
        _ => plain_rule(rest, input, scratch, output).unwrap_or(false),
    }
}

// A rule on a long input: a byte so many times, and then the case's own bytes.
fn long_rule(
    rest: Rest<'_>,
    input: &[u8],
    text: &mut [u8],
    scratch: &mut [u32],
    output: &mut [u32],
) -> Option<bool> {
    let (byte, rest) = rest.number()?;
    let (count, rule) = rest.next()?;
    let count = count? as usize;
    if text.len() < count {
        return None;
    }
    if text.len() - count < input.len() {
        return None;
    }
    text[..count].fill((byte % 256) as u8);
    text[count..count + input.len()].copy_from_slice(input);
    plain_rule(rule, &text[..count + input.len()], scratch, output)
}

fn plain_rule(
    rest: Rest<'_>,
    input: &[u8],
    scratch: &mut [u32],
    output: &mut [u32],
) -> Option<bool> {
    let (call, rest) = rest.next()?;
    match call? {
        0 => Some(line_rule(rest, input)),
        1 => sized_rule(rest, input, scratch, output),
        2 => {
            let (max, rest) = rest.wide()?;
            Some(number_agrees(rest, util::parse_hex(input, max)))
        }
        3 => {
            let (max, rest) = rest.wide()?;
            Some(number_agrees(rest, util::parse_decimal(input, max)))
        }
        _ => None,
    }
}

fn line_rule(rest: Rest<'_>, input: &[u8]) -> bool {
    match register::parse_debugfs(input) {
        Ok(Some(r)) => match rest.after(&[0]) {
            Some(rest) => rest.is(&record_words(r)),
            None => false,
        },
        Ok(None) => rest.is(&[0]),
        Err(Refusal::NotAscii(place)) => rest.is(&[1, low(place as u64)]),
        Err(_) => false,
    }
}

// A dump into buffers of so many words.
fn sized_rule(
    rest: Rest<'_>,
    input: &[u8],
    scratch: &mut [u32],
    output: &mut [u32],
) -> Option<bool> {
    let (s, rest) = rest.next()?;
    let (o, rest) = rest.next()?;
    let scratch = scratch.get_mut(..s? as usize)?;
    let output = output.get_mut(..o? as usize)?;
    dump_rule(rest, input, scratch, output)
}

// The answer, and then every word of both buffers.
fn dump_rule(
    rest: Rest<'_>,
    input: &[u8],
    scratch: &mut [u32],
    output: &mut [u32],
) -> Option<bool> {
    cases::mark(scratch, 0x5c000000);
    cases::mark(output, 0x0a000000);
    let answer = match dump::read(input, scratch, output) {
        Ok(n) => [0, low(n as u64)],
        Err(Refusal::NotAscii(place)) => [1, low(place as u64)],
        Err(Refusal::Short(needed)) => [2, low(needed as u64)],
        Err(_) => return None,
    };
    let rest = rest.after(&answer)?.after(scratch)?;
    Some(rest.is(output))
}
