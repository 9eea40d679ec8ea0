// Whether there is room for a dump's records.
#![tactic(auto)]

ghost use Rattle.std.specs.Prelude.{◌≡◌, ◌*◌, ◌≤◌, [], ltb, length};
ghost use Rattle.scan.specs.Scan.{lines};
ghost use Rattle.room.specs.Records.{with_record, records_of, RoomFor};
ghost use Rattle.room.specs.Work.{line_start, starts_in};

use refusal::Refusal;
use register::{Register, Skip};

// How many records a line gives, 0 or 1.
fn line_records(met: Result<Register, Skip>) -> usize
    ensures { result ≡ length (with_record met []) }
{
    let Ok(_) = met else {
        return 0;
    };
    1
}

// How many records the lines of a text give. Each takes four bytes at least, so that the words needed are no more than the bytes.
fn count(s: &[u8]) -> usize
    ensures { (result ≡ length (records_of (lines s.now))) × (4 * result ≤ length s.now) }
{
    let mut n: usize = 0;
    let mut at = 0;
    while at < s.len() {
        let line = columns::read_at(s, at);
        let met = line.met;
        n += line_records(met);
        at = line.end + 1;
    }
    n
}

// Whether a buffer of `words` is too short.
fn lacks(words: usize, need: usize) -> bool
    ensures { result ≡ ltb words need }
{
    words < need
}

// Whether there is room in the scratch and in the output, by the number of records.
fn room_counted(dump: &[u8], scratch: usize, output: usize) -> Result<(), Refusal>
    ensures { RoomFor dump.now scratch output result }
{
    let need = 4 * count(dump);
    if lacks(scratch, need) {
        return Err(Refusal::Short(need));
    }
    if lacks(output, need) {
        return Err(Refusal::Short(need));
    }
    Ok(())
}

// 1 where a line that may give a record begins between two bytes: after LF, and neither with LF nor with `#`. Else 0.
fn start(b: u8, c: u8) -> u8
    ensures { result ≡ line_start b c }
{
    if b != 10 {
        return 0;
    }
    if c == 10 {
        return 0;
    }
    if c == b'#' {
        return 0;
    }
    1
}

// How many such lines begin after the first byte, of at most 256: a count in a byte, so that it takes many bytes at a time.
fn starts(s: &[u8]) -> u8
    requires { length s.now ≤ 256 }
    ensures { result ≡ starts_in s.now }
{
    let mut n: u8 = 0;
    for i in 1..s.len() {
        n += start(s[i - 1], s[i]);
    }
    n
}

// The same of any bytes, by blocks; the last byte of each is the first of the next.
fn all_starts(s: &[u8]) -> usize
    ensures { result ≡ starts_in s.now }
{
    let mut n: usize = 0;
    let mut at: usize = 0;
    // No step_by: where the loop ends is where the last block begins.
    while 193 <= s.len() - at {
        n += starts(&s[at..at + 193]) as usize;
        at += 192;
    }
    n + starts(&s[at..]) as usize
}

// No fewer than the records, with no line parsed: each has a line of its own, which is not empty and no comment.
fn most_records(s: &[u8]) -> usize
    ensures { length (records_of (lines s.now)) ≤ result }
{
    if s.len() < 1 {
        return 0;
    }
    start(10, s[0]) as usize + all_starts(s)
}

// Whether there is room for a dump's records in the scratch and in the output. Where there is room for a record a line, no record is counted.
pub fn room_for(dump: &[u8], scratch: usize, output: usize) -> Result<(), Refusal>
    ensures { RoomFor dump.now scratch output result }
{
    let most = most_records(dump);
    if lacks(scratch / 4, most) {
        return room_counted(dump, scratch, output);
    }
    if lacks(output / 4, most) {
        return room_counted(dump, scratch, output);
    }
    Ok(())
}
