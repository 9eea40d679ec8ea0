// A path's result words, written by a walk on the tables that a survey is loaded to.
#![tactic(auto)]

ghost use Rattle.std.specs.Prelude.{◌+◌, ◌*◌, ◌≤◌, ◌<◌, ◌≡◌, length};
ghost use Rattle.path.specs.Names.{name_number};
ghost use Rattle.path.specs.Put.{Put, WalkPut};
ghost use Rattle.path.specs.Work.{HopsPut};

use fabric::Next;
use refusal::Refusal;
use tables::{Stand, Tables};

// No survey loads to more.
const MOST_ENTRIES: usize = 4096;

const MOST_DEVICES: usize = 4096;

// A path's name by its number, which is any that a byte holds: a caller may have names of its own.
#[derive(Clone, Copy, PartialEq, Eq)]
pub struct PathName(pub u8);

// Those that document 01 numbers. The path of a single walk has one beside those of tunnels' paths.
impl PathName {
    pub const USB3_DOWN: PathName = PathName(0);

    pub const USB3_UP: PathName = PathName(1);

    pub const VIDEO: PathName = PathName(2);

    pub const AUX_TX: PathName = PathName(3);

    pub const AUX_RX: PathName = PathName(4);

    pub const PCIE_DOWN: PathName = PathName(5);

    pub const PCIE_UP: PathName = PathName(6);

    pub const DMA_TX: PathName = PathName(7);

    pub const DMA_RX: PathName = PathName(8);

    pub const WALK: PathName = PathName(9);
}

impl From<PathName> for u32 {
    ghost from_gives = { λ p n. n ≡ name_number p };

    fn from(name: PathName) -> u32 {
        name.0 as u32
    }
}

// The head word of a path.
fn path_word(name: PathName, hops: usize) -> u32
    ensures { hops < 65536 → result ≡ 9 * 268435456 + name_number name * 65536 + hops }
{
    2415919104 + u32::from(name) * 65536 + (hops % 65536) as u32
}

// The first word of a hop.
fn hop_word(place: usize, adapter: u8, out_adapter: u8) -> u32
    ensures { place < 4096 → result ≡ 10 * 268435456 + place * 65536 + adapter * 256 + out_adapter }
{
    2684354560 + ((place % 4096) as u32) * 65536 + (adapter as u32) * 256 + out_adapter as u32
}

// Writes the hops of a walk from the output's second word on, as far as there is room; how many.
fn put_hops(tables: &Tables, stand: Stand, output: &mut [u32]) -> usize
    requires { 1 ≤ length output.old }
    ensures { HopsPut tables.now stand output.old result output.new }
{
    let room = (output.len() - 1) / 2;
    let mut s = stand;
    for i in 0..room {
        let Some(entry) = search::find_entry(tables.entries, s) else {
            return i;
        };
        output[1 + 2 * i] = hop_word(s.place, s.adapter, entry.out_adapter);
        output[2 + 2 * i] = (s.hop_id as u32) * 65536 + entry.out_hop as u32;
        let Ok(next) = fabric::leads(tables, s.place, entry.out_adapter) else {
            return i + 1;
        };
        let Next::On { place, adapter } = next else {
            return i + 1;
        };
        s = Stand {
            place,
            adapter,
            hop_id: entry.out_hop,
        };
    }
    room
}

// Writes a walk's hops, as far as there is room, as a path with a name; how many words. For a walk that is known to have a path: whether there is one is not looked at.
pub fn put_walk(tables: &Tables, stand: Stand, name: PathName, output: &mut [u32]) -> usize
    ensures { WalkPut tables.now stand (name_number name) output.old result output.new }
{
    if output.len() < 1 {
        return 0;
    }
    let hops = put_hops(tables, stand, output);
    output[0] = path_word(name, hops);
    1 + 2 * hops
}

// Writes the path of the walk from a stand, with a name, and answers how many hops it has, or the words needed (2); nothing where there is none, or too little room, or where the tables are larger than a survey's.
pub fn put_path(
    tables: &Tables,
    stand: Stand,
    name: PathName,
    output: &mut [u32],
) -> Result<Option<usize>, Refusal>
    ensures { Put tables.now stand (name_number name) output.old result output.new }
{
    if MOST_ENTRIES < tables.entries.len() {
        return Ok(None);
    }
    if MOST_DEVICES < tables.devices.len() {
        return Ok(None);
    }
    let walked = walk::tally(tables, stand)?;
    let Some(path) = walked else {
        return Ok(None);
    };
    let need = 1 + 2 * path.hops;
    if output.len() < need {
        return Err(Refusal::Short(need));
    }
    put_walk(tables, stand, name, &mut output[..need]);
    Ok(Some(path.hops))
}
