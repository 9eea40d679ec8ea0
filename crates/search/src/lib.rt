// Searches in the tables of path entries and adapters, by key. Any words will do; where a table's keys fall, what is found is free. A place and a number stay two parameters, and no site: they come of two things, a place and the adapter that an entry or a route names, and go into a key.
#![tactic(auto)]

ghost use Rattle.search.specs.Ahead.{HopAhead};
ghost use Rattle.search.specs.Lanes.{LaneSought};
ghost use Rattle.search.specs.Work.{WordSought};
ghost use Rattle.tables.specs.Found.{EntrySought, AdapterSought};
ghost use Rattle.std.specs.Prelude.{◌≡◌, ◌/◌, ◌%◌};
ghost use Rattle.adapter.specs.Paths.{entry_out};

use adapter::{EntryOut, Facts};
use tables::Stand;
use usb4::AdapterType;

// A HopID and what its entry leads to.
#[derive(Clone, Copy)]
pub struct HopEntry {
    pub hop: u16,
    pub out: EntryOut,
}

// What the entry of a word leads to.
fn out_of(w: u64) -> EntryOut
    ensures { result ≡ entry_out (w / 65536 % 256) (w % 65536) }
{
    EntryOut {
        out_adapter: (w / 65536 % 256) as u8,
        out_hop: (w % 65536) as u16,
    }
}

// The first entry for a HopID at an adapter of a device.
pub fn find_entry(entries: &[u64], stand: Stand) -> Option<EntryOut>
    ensures { EntrySought entries.now stand.place stand.adapter stand.hop_id result }
{
    let place = stand.place;
    if 65535 < place {
        return None;
    }
    let key = (place as u64) * 16777216 + (stand.adapter as u64) * 65536 + (stand.hop_id as u64);
    let i = boundary::seek(entries, key * 16777216);
    if entries.len() <= i {
        return None;
    }
    let w = entries[i];
    if w / 16777216 != key {
        return None;
    }
    Some(out_of(w))
}

// The next HopID at an adapter of a device, from a stand's on, that has an entry, with its first entry.
pub fn next_hop(entries: &[u64], stand: Stand) -> Option<HopEntry>
    ensures { HopAhead entries.now stand.place stand.adapter stand.hop_id result }
{
    let place = stand.place;
    if 65535 < place {
        return None;
    }
    let owner = (place as u64) * 256 + (stand.adapter as u64);
    let i = boundary::seek(entries, (owner * 65536 + (stand.hop_id as u64)) * 16777216);
    if entries.len() <= i {
        return None;
    }
    let w = entries[i];
    if w / 1099511627776 != owner {
        return None;
    }
    let next = (w / 16777216 % 65536) as u16;
    Some(HopEntry {
        hop: next,
        out: out_of(w),
    })
}

// The word of the adapter of a device with a number.
fn adapter_word(adapters: &[u64], place: usize, number: u8) -> Option<u64>
    ensures { WordSought adapters.now place number result }
{
    if 65535 < place {
        return None;
    }
    let key = (place as u64) * 256 + (number as u64);
    let i = boundary::seek(adapters, key * 1099511627776);
    if adapters.len() <= i {
        return None;
    }
    let w = adapters[i];
    if w / 1099511627776 != key {
        return None;
    }
    Some(w)
}

// The adapter of a device with a number.
pub fn find_adapter(adapters: &[u64], place: usize, number: u8) -> Option<Facts>
    ensures { AdapterSought adapters.now place number result }
{
    let Some(w) = adapter_word(adapters, place, number) else {
        return None;
    };
    Some(facts::facts_of(w))
}

// Whether the adapter of a device with a number is a lane: no more of it than a walk asks.
pub fn find_lane(adapters: &[u64], place: usize, number: u8) -> Option<bool>
    ensures { LaneSought adapters.now place number result }
{
    let Some(w) = adapter_word(adapters, place, number) else {
        return None;
    };
    Some(w / 65536 % 16 == AdapterType::Lane as u64)
}
