// The walk (module 7, `discover_path`) on the tables that a survey is loaded to.
#![tactic(auto)]

ghost use Rattle.walk.specs.Tables.{Tallied, Onward};

use adapter::EntryOut;
use fabric::Next;
use refusal::{Fault, WalkError};
use tables::{Stand, Tables};

// A path's number of hops with its last hop's place, out adapter and out HopID.
#[derive(Clone, Copy)]
pub struct Walked {
    pub hops: usize,
    pub place: usize,
    pub adapter: u8,
    pub hop: u16,
}

// How a walk ends whose first hop leaves the device at a place by an out adapter and HopID. A walk that is still going after as many hops as there are entries never ends.
pub fn onward(tables: &Tables, place: usize, out: EntryOut) -> Result<Option<Walked>, WalkError>
    ensures { Onward tables.now place out result }
{
    let mut left = tables.entries.len();
    let mut hops: usize = 0;
    let mut p = place;
    let mut a = out.out_adapter;
    let mut h = out.out_hop;
    loop {
        if left < 1 {
            return Err(WalkError::Fault(Fault::Endless));
        }
        left -= 1;
        hops += 1;
        let next = fabric::leads(tables, p, a)?;
        match next {
            Next::On { place, adapter } => {
                let stand = Stand {
                    place,
                    adapter,
                    hop_id: h,
                };
                let Some(entry) = search::find_entry(tables.entries, stand) else {
                    return Ok(Some(Walked {
                        hops,
                        place: p,
                        adapter: a,
                        hop: h,
                    }));
                };
                p = place;
                a = entry.out_adapter;
                h = entry.out_hop;
            }
            Next::Last => {
                return Ok(Some(Walked {
                    hops,
                    place: p,
                    adapter: a,
                    hop: h,
                }));
            }
            Next::Dropped => {
                return Ok(None);
            }
        }
    }
}

// How the walk from where it stands ends. The first entry is looked for before the loop, so that a walk without one ends soon.
pub fn tally(tables: &Tables, stand: Stand) -> Result<Option<Walked>, WalkError>
    ensures { Tallied tables.now stand result }
{
    let Some(entry) = search::find_entry(tables.entries, stand) else {
        return Ok(None);
    };
    onward(tables, stand.place, entry)
}
