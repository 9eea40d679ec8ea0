// What the program prints of a loaded survey: all adapters are tried first, then each one's lines are printed.
#![tactic(auto)]

ghost use Rattle.std.specs.Prelude.{◌<◌, ◌≡◌, true, false, length};
ghost use Rattle.report.specs.Tables.{Tries, Paged};
ghost use Rattle.report.specs.Work.{Answered, size_of};
ghost use Rattle.tables.specs.Tables.{Fits};

use refusal::{Refusal, Site};
use tables::Tables;

// Result words that there is room for in each answer.
pub const ANSWER_ROOM: usize = 16384;

// No survey loads to more.
const MOST_ENTRIES: usize = 4096;

const MOST_ADAPTERS: usize = 16384;

const MOST_DEVICES: usize = 4096;

// Whether tables are larger than any that a survey loads to.
fn larger(tables: &Tables) -> bool
    ensures { ((result ≡ false) → Fits tables.now) × ((result ≡ true) → Fits tables.now → ⊥) }
{
    if MOST_ENTRIES < tables.entries.len() {
        return true;
    }
    if MOST_ADAPTERS < tables.adapters.len() {
        return true;
    }
    MOST_DEVICES < tables.devices.len()
}

// How many words an adapter's answer has; absent and an empty list have none.
#[tactic(auto, unfolding(crate::specs::Work::size_of))]
fn size_of(found: Result<Option<usize>, Refusal>) -> Result<usize, Refusal>
    ensures { result ≡ size_of found }
{
    Ok(found?.unwrap_or(0))
}

// The result words of the adapter at an index of the table.
fn answer_at(tables: &Tables, index: usize, words: &mut [u32]) -> Result<usize, Refusal>
    requires { (index < length tables.now.adapters.now) × (length words.old ≡ 16384) }
    ensures { Answered tables.now index result words.new }
{
    let word = tables.adapters[index];
    let site = Site {
        place: (word / 281474976710656) as usize,
        adapter: (word / 1099511627776 % 256) as u8,
    };
    let found = discovery::discover_in(tables, site, words);
    size_of(found)
}

// Tries each adapter in order; how many tunnels there are in all, or the first refusal.
pub fn try_all(tables: &Tables) -> Result<usize, Refusal>
    ensures { Tries tables.now result }
{
    if larger(tables) {
        return Ok(0);
    }
    let mut words = [0u32; ANSWER_ROOM];
    let mut total: usize = 0;
    for index in 0..tables.adapters.len() {
        let n = answer_at(tables, index, &mut words)?;
        total += printed::tunnels(&words[..n]);
    }
    Ok(total)
}

// The lines of the adapter at an index of the table: how many bytes, or the bytes needed (2). An adapter whose answer is refused refuses the whole, be it with another 2.
pub fn put_page(
    tables: &Tables,
    index: usize,
    output: &mut [u8],
) -> Result<Result<usize, Refusal>, Refusal>
    ensures { Paged tables.now index output.old result output.new }
{
    if larger(tables) {
        return Ok(Ok(0));
    }
    if tables.adapters.len() <= index {
        return Ok(Ok(0));
    }
    let mut words = [0u32; ANSWER_ROOM];
    let n = answer_at(tables, index, &mut words)?;
    let page = printed::lines(&words[..n], output);
    Ok(page)
}
