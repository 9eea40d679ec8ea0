// What the exported calls answer, in eight words: the calls on a survey, on one adapter and for a single walk.
#![tactic(auto)]

ghost use Rattle.std.specs.Prelude.{◌≡◌};
ghost use Rattle.refusal.specs.Outcome.{value};
ghost use Rattle.answers.specs.Said.{said, always, perhaps, one};
ghost use Rattle.replies.specs.Replies.{hop_or, counts_words, info_words, hop_count_words};
ghost use Rattle.refusal.specs.Refusal.{outcome};

use acceptance::Acceptance;
use adapters::AdapterInfo;
use refusal::Refusal;

// A survey's devices and valid entries.
pub fn loaded(answer: Result<Acceptance, Refusal>) -> [u64; 8]
    ensures { result ≡ said (always counts_words (outcome answer)) }
{
    match answer {
        Ok(counts) => {
            let devices = counts.devices as u64;
            let entries = counts.entries as u64;
            [0, 1, devices, entries, 0, 0, 0, 0]
        }
        Err(refusal) => answers::refused(refusal),
    }
}

// A least HopID; 65,536 where there is none.
fn hop_or(hop: Option<u32>) -> u64
    ensures { result ≡ hop_or hop }
{
    match hop {
        Some(h) => h as u64,
        None => 65536,
    }
}

// What is said of an adapter.
fn info(i: AdapterInfo) -> [u64; 8]
    ensures { result ≡ said (value (Some (info_words i))) }
{
    [
        0,
        1,
        u32::from(i.kind) as u64,
        u32::from(i.state) as u64,
        u64::from(i.lane0),
        u64::from(i.lane1),
        hop_or(i.min_hop),
        u64::from(i.enabled),
    ]
}

// Kind, state, lane 0, lane 1, least HopID, whether it is enabled.
pub fn adapter(answer: Result<AdapterInfo, Refusal>) -> [u64; 8]
    ensures { result ≡ said (always info_words (outcome answer)) }
{
    match answer {
        Ok(i) => info(i),
        Err(refusal) => answers::refused(refusal),
    }
}

// The words of a path of so many hops.
fn words_of(hops: usize) -> u64
    ensures { one result ≡ hop_count_words hops }
{
    if hops < 9223372036854775808 {
        return 1 + 2 * (hops as u64);
    }
    0
}

// The words of a path, or none.
pub fn walk(answer: Result<Option<usize>, Refusal>) -> [u64; 8]
    ensures { result ≡ said (perhaps hop_count_words (outcome answer)) }
{
    match answer {
        Ok(Some(n)) => [0, 1, words_of(n), 0, 0, 0, 0, 0],
        Ok(None) => [0; 8], // no path
        Err(refusal) => answers::refused(refusal),
    }
}
