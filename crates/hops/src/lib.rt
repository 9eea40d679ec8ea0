// A single walk's hops as records.
#![tactic(auto)]

ghost use Rattle.std.specs.Prelude.{◌≡◌, ◌/◌, ◌-◌, ◌≤◌, ◌<◌, ◌^◌, length};
ghost use Rattle.hops.specs.Calls.{HopsDone};
ghost use Rattle.hops.specs.Records.{hop_at, filled};

use refusal::Refusal;
use tables::Stand;

// A hop: where it was made, and where it leads.
#[derive(Clone, Copy)]
pub struct Hop {
    pub place: usize,
    pub in_adapter: u8,
    pub in_hop: u16,
    pub out_adapter: u8,
    pub out_hop: u16,
}

// The place in a hop's first word.
fn place_in(word: u32) -> usize
    ensures { result ≡ word / 65536 - 40960 }
{
    let high = word / 65536;
    if high < 40960 {
        return 0;
    }
    (high - 40960) as usize
}

// The record of hop i of a path's words; words past the end count as 0.
fn hop_at(words: &[u32], i: usize) -> Hop
    requires { i < 2 ^ 62 }
    ensures { result ≡ hop_at words.now i }
{
    let first = layout::word_at(words, 1 + 2 * i);
    let second = layout::word_at(words, 2 + 2 * i);
    Hop {
        place: place_in(first),
        in_adapter: (first / 256 % 256) as u8,
        in_hop: (second / 65536) as u16,
        out_adapter: (first % 256) as u8,
        out_hop: (second % 65536) as u16,
    }
}

// The first n records are filled from the words.
fn fill(words: &[u32], records: &mut [Hop], n: usize)
    requires { n ≤ length records.old }
    ensures { records.new ≡ filled words.now n records.old }
{
    for (i, record) in records[..n].iter_mut().enumerate() {
        *record = hop_at(words, i);
    }
}

// The walk's hops as records, as the single walk else, but that 2 gives the records needed; records past them are as they were. The core's words have room for any path: none has more than 4,096 hops.
pub fn hop_records(
    descriptions: &[u32],
    survey: &[u32],
    stand: Stand,
    records: &mut [Hop],
) -> Result<Option<usize>, Refusal>
    ensures { HopsDone descriptions.now survey.now stand records.old result records.new }
{
    let mut words = [0; 8193];
    let walked = walks::discover_path(descriptions, survey, stand, &mut words);
    match walked {
        Ok(Some(n)) => {
            if records.len() < n {
                return Err(Refusal::Short(n));
            }
            fill(&words, records, n);
            walked
        }
        Ok(None) => walked,
        Err(_) => walked,
    }
}
