// The receive path of a ring (module 7, `discover_one_dma`), sought on the tables that a survey is loaded to.
#![tactic(auto)]

ghost use Rattle.std.specs.Prelude.{ℕ, ◌+◌, ◌*◌, ◌<◌, ◌≡◌, length};
ghost use Rattle.adapter.specs.Adapter.{facts_row};
ghost use Rattle.tables.specs.Rows.{device_in};
ghost use Rattle.tables.specs.Packed.{device_row};
ghost use Rattle.receive.specs.Receive.{hops_of, under_router, taken};
ghost use Rattle.receive.specs.Tables.{note_ring, Searches};
ghost use Rattle.receive.specs.Work.{lane_outcome, LaneIs, lane_at, Looked, PutNote};
ghost use Rattle.tables.specs.Tables.{Fits};

use adapter::Facts;
use refusal::{Fault, FieldError, Site, WalkError};
use tables::{DeviceFacts, Stand, Tables};
use usb4::Kind;

// A path by its start, its number of hops, and the place and adapter by which it leaves.
#[derive(Clone, Copy)]
pub struct ReceivePath {
    pub start: Stand,
    pub hops: usize,
    pub out_place: usize,
    pub out_adapter: u8,
}

// A path; none; or the ring's tunnel is dropped.
#[derive(Clone, Copy)]
pub enum Received {
    Path(ReceivePath),
    Nothing,
    Lost,
}

// HopIDs of an adapter at which a device's paths come in; a device that is passed over; or the ring's tunnel is dropped.
#[derive(Clone, Copy)]
pub enum LaneFound {
    At {
        place: usize,
        adapter: u8,
        least: u32,
        most: u32,
    },
    Passed,
    Dropped,
}

// What a search comes to, and notes for the search of other rings: of a path that it passes the place, adapter and HopID from which it starts, and the HopID that it leaves by, in one word. `noted` is how many there are; as many as there is room for tell nothing.
#[derive(Drop)]
pub struct Searched<const ROOM: usize> {
    pub found: Result<Received, WalkError>,
    pub noted: usize,
    pub notes: [u64; ROOM],
}

// The same without the notes themselves.
#[derive(Clone, Copy)]
pub struct Sought {
    pub found: Result<Received, WalkError>,
    pub noted: usize,
}

// The HopID to look at next; a path from a HopID that leaves by another than the ring; none is left; or a path that leaves by the ring.
#[derive(Clone, Copy)]
pub enum Step {
    On(u32),
    Past { hop: u16, last: u16 },
    Over,
    Fits(ReceivePath),
}

// The HopIDs of an adapter of the router at a place, or 6.
fn hops_of(place: usize, f: Facts) -> Result<LaneFound, WalkError>
    ensures { lane_outcome result ≡ hops_of place (facts_row place f) }
{
    let kind = f.kind;
    let Some(least) = hopids::min_hop(kind) else {
        return Ok(LaneFound::Dropped);
    };
    let max_hop = f.max_hop;
    match max_hop {
        Ok(None) => Ok(LaneFound::Dropped),
        Err(FieldError::NoField) => Err(WalkError::Fault(Fault::NoField(Site {
            place,
            adapter: f.number,
        }))),
        Ok(Some(most)) => Ok(LaneFound::At {
            place,
            adapter: f.number,
            least,
            most,
        }),
    }
}

// Of the router at place q, the adapter beneath which a device hangs.
fn beneath(tables: &Tables, d: DeviceFacts, q: usize) -> Result<LaneFound, WalkError>
    ensures { (p : ℕ) → LaneIs tables.now (λ x. under_router x (device_row p d) q (device_in x.devices q)) result }
{
    let Some(e) = routers::find_device(tables, q) else {
        return Ok(LaneFound::Passed);
    };
    let Some(n) = route::downstream_adapter(e.domain, e.route, d.domain, d.route) else {
        return Ok(LaneFound::Passed);
    };
    let Some(f) = search::find_adapter(tables.adapters, q, n) else {
        return Ok(LaneFound::Dropped);
    };
    hops_of(q, f)
}

// Whether a device is looked at: xdomains are, of any domain.
fn taken(d: DeviceFacts) -> bool
    ensures { (p : ℕ) → result ≡ taken (device_row p d) }
{
    let kind = d.kind;
    match kind {
        Kind::Xdomain => true,
        _ => false,
    }
}

// Where the receive paths of the device at a place come in: an xdomain's, at its parent.
fn lane_of(tables: &Tables, place: usize) -> Result<LaneFound, WalkError>
    ensures { LaneIs tables.now (λ x. lane_at x place) result }
{
    let Some(d) = routers::find_device(tables, place) else {
        return Ok(LaneFound::Passed);
    };
    if !taken(d) {
        return Ok(LaneFound::Passed);
    }
    let Some(q) = parents::parent_of(tables, place, d)? else {
        return Ok(LaneFound::Passed);
    };
    beneath(tables, d, q)
}

// The next HopID from `hop` to `most` that has an entry at an adapter of the device at a place: its path, if its last hop leaves by the ring.
fn look_at(
    tables: &Tables,
    place: usize,
    adapter: u8,
    hop: u32,
    most: u32,
    ring: u16,
) -> Result<Step, WalkError>
    ensures { Looked tables.now ring place adapter hop most result }
{
    if 65535 < hop {
        return Ok(Step::Over);
    }
    let from = Stand {
        place,
        adapter,
        hop_id: hop as u16,
    };
    let Some(next) = search::next_hop(tables.entries, from) else {
        return Ok(Step::Over);
    };
    let hop_id = next.hop;
    let at = hop_id as u32;
    if most < at {
        return Ok(Step::Over);
    }
    let walked = walk::onward(tables, place, next.out)?;
    let Some(w) = walked else {
        return Ok(Step::On(at + 1));
    };
    if w.hop != ring {
        return Ok(Step::Past {
            hop: hop_id,
            last: w.hop,
        });
    }
    Ok(Step::Fits(ReceivePath {
        start: Stand {
            place,
            adapter,
            hop_id,
        },
        hops: w.hops,
        out_place: w.place,
        out_adapter: w.adapter,
    }))
}

// A path's note.
fn note_word(place: usize, adapter: u8, hop: u16, last: u16) -> u64
    ensures { (note_ring result ≡ last) × (place < 65536 → result ≡ place * 1099511627776 + adapter * 4294967296 + hop * 65536 + last) }
{
    let start = (place % 65536) as u64 * 16777216 + adapter as u64 * 65536 + hop as u64;
    start * 65536 + last as u64
}

// Puts a note, if there is room; how many there are then.
fn put_note(notes: &mut [u64], noted: usize, word: u64) -> usize
    ensures { PutNote word noted notes.old result notes.new }
{
    if notes.len() <= noted {
        return noted;
    }
    notes[noted] = word;
    noted + 1
}

// The first path that leaves by the ring, over the xdomains and the HopIDs of the adapters at which their paths come in. Those before it are noted.
fn seek_path(tables: &Tables, ring: u16, notes: &mut [u64]) -> Sought
    ensures { Searches (length notes.new) tables.now ring result.found result.noted notes.new }
{
    let mut noted: usize = 0;
    let mut found = Ok(Received::Nothing);
    'rx_path: for i in 0..tables.devices.len() {
        match lane_of(tables, i) {
            Err(error) => {
                let found = Err(error);
                return Sought { found, noted };
            }
            Ok(LaneFound::Dropped) => {
                let found = Ok(Received::Lost);
                return Sought { found, noted };
            }
            Ok(LaneFound::Passed) => continue,
            Ok(
                LaneFound::At {
                    place,
                    adapter,
                    least,
                    most,
                },
            ) => {
                let mut hop = least;
                while hop <= most {
                    match look_at(tables, place, adapter, hop, most, ring) {
                        Ok(Step::On(next)) => hop = next,
                        Ok(Step::Past { hop: h, last }) => {
                            let word = note_word(place, adapter, h, last);
                            noted = put_note(notes, noted, word);
                            hop = h as u32 + 1;
                        }
                        Ok(Step::Over) => break,
                        Err(error) => {
                            let found = Err(error);
                            return Sought { found, noted };
                        }
                        Ok(Step::Fits(path)) => {
                            found = Ok(Received::Path(path));
                            break 'rx_path;
                        }
                    }
                }
            }
        }
    }
    Sought { found, noted }
}

// The receive path of a ring, and what is noted as it is sought. Much room, 16 KiB for 2,048 notes, is for a search that passes many paths; one that passes few needn't pay for it.
pub fn receive<const ROOM: usize>(tables: &Tables, ring: u16) -> Searched<ROOM>
    ensures { Searches ROOM tables.now ring result.found result.noted result.notes }
{
    let mut notes = [0u64; ROOM];
    let sought = seek_path(tables, ring, &mut notes);
    let found = sought.found;
    Searched {
        found,
        noted: sought.noted,
        notes,
    }
}
