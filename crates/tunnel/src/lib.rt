// Tunnels of an adapter (module 7, `discover_usb3`, `discover_dp`, `discover_pcie`, `discover_one_dma`), as plans, on the tables that a survey is loaded to.
#![tactic(auto)]

ghost use Rattle.std.specs.Prelude.{ℕ, ◌+◌, ◌*◌, ◌≤◌, ◌<◌, ◌≡◌, ◌&&◌, eqb};
ghost use Rattle.tables.specs.declared.Tables.{Tables};
ghost use Rattle.path.specs.Names.{name_number};
ghost use Rattle.receive.specs.Receive.{at};
ghost use Rattle.receive.specs.Tables.{Receives};
ghost use Rattle.tunnel.specs.Tunnels.{down_and_up, display_port};
ghost use Rattle.tunnel.specs.Plans.{words_by, Plans, RingPlans};
ghost use Rattle.tunnel.specs.Work.{Draws, finished, auxiliary, alone_plan, with_plan, ring_by, start_by, one_path};

use path::PathName;
use receive::Received;
use refusal::{Site, WalkError};
use tables::{Stand, Tables};
use usb4::TunnelType;

// Where a path starts, and its name.
#[derive(Clone, Copy)]
pub struct Start {
    pub stand: Stand,
    pub name: PathName,
}

// Where the paths of a tunnel start, in their order.
#[derive(Clone, Copy)]
pub enum Starts {
    One(Start),
    Two {
        first: Start,
        last: Start,
    },
    Three {
        first: Start,
        second: Start,
        last: Start,
    },
}

// A tunnel's type, closed mark and number of words, and where its paths start.
#[derive(Clone, Copy)]
pub struct Plan {
    pub kind: TunnelType,
    pub closed: bool,
    pub words: usize,
    pub starts: Starts,
}

// The Rust's `PCIE_HOPID` is the same.
const USB3_HOPID: u16 = 8;

const DP_AUX_TX_HOPID: u16 = 8;

const DP_AUX_RX_HOPID: u16 = 8;

const DP_VIDEO_HOPID: u16 = 9;

fn starting(site: Site, hop_id: u16, name: PathName) -> Start
    ensures { result ≡ start_by (at site.place site.adapter hop_id) name }
{
    let stand = Stand {
        place: site.place,
        adapter: site.adapter,
        hop_id,
    };
    Start { stand, name }
}

// A path's words, for fewer than 65,536 hops: no survey loads to a path of more.
fn path_words(hops: usize) -> usize
    ensures { (result ≤ 131071) × (hops < 65536 → result ≡ 1 + 2 * hops) }
{
    1 + 2 * (hops % 65536)
}

fn same(site: Site, other: Site) -> bool
    ensures { result ≡ (eqb site.place other.place && eqb site.adapter other.adapter) }
{
    if site.place == other.place {
        return site.adapter == other.adapter;
    }
    false
}

// The last path of a tunnel, walked from a stand, and with it the tunnel: closed where that path leaves by the adapter at which the first starts.
fn finish(
    tables: &Tables,
    kind: TunnelType,
    words: usize,
    site: Site,
    last: Stand,
    starts: Starts,
) -> Result<Option<Plan>, WalkError>
    requires { words ≤ 262143 }
    ensures { Draws tables.now last.place (λ x. finished x kind words site.place site.adapter last starts) result }
{
    let walked = walk::tally(tables, last)?;
    let Some(w) = walked else {
        return Ok(None);
    };
    let leaves = Site {
        place: w.place,
        adapter: w.adapter,
    };
    Ok(Some(Plan {
        kind,
        closed: same(leaves, site),
        words: words + path_words(w.hops),
        starts,
    }))
}

// USB 3 and PCIe: down from the adapter, then up from where that path leaves.
pub fn down_and_up(
    tables: &Tables,
    site: Site,
    kind: TunnelType,
    down: PathName,
    up: PathName,
) -> Result<Option<Plan>, WalkError>
    ensures { Plans tables.now site.place (λ x. down_and_up x kind (name_number down) (name_number up) site.place site.adapter) result }
{
    let first = starting(site, USB3_HOPID, down);
    let walked = walk::tally(tables, first.stand)?;
    let Some(w) = walked else {
        return Ok(None);
    };
    let leaves = Site {
        place: w.place,
        adapter: w.adapter,
    };
    let last = starting(leaves, USB3_HOPID, up);
    let starts = Starts::Two { first, last };
    let words = 1 + path_words(w.hops);
    finish(tables, kind, words, site, last.stand, starts)
}

// AUX TX and AUX RX, where a tunnel's head and its Video path have so many words.
fn aux(tables: &Tables, site: Site, words: usize) -> Result<Option<Plan>, WalkError>
    requires { words ≤ 131072 }
    ensures { Draws tables.now site.place (λ x. auxiliary x site.place site.adapter words) result }
{
    let tx = starting(site, DP_AUX_TX_HOPID, PathName::AUX_TX);
    let walked = walk::tally(tables, tx.stand)?;
    let Some(w) = walked else {
        return Ok(None);
    };
    let leaves = Site {
        place: w.place,
        adapter: w.adapter,
    };
    let rx = starting(leaves, DP_AUX_RX_HOPID, PathName::AUX_RX);
    let starts = Starts::Three {
        first: starting(site, DP_VIDEO_HOPID, PathName::VIDEO),
        second: tx,
        last: rx,
    };
    let dp = TunnelType::DisplayPort;
    let before = words + path_words(w.hops);
    finish(tables, dp, before, site, rx.stand, starts)
}

// DisplayPort: Video, AUX TX, then AUX RX from where AUX TX leaves.
pub fn display_port(tables: &Tables, site: Site) -> Result<Option<Plan>, WalkError>
    ensures { Plans tables.now site.place (λ x. display_port x site.place site.adapter) result }
{
    let video = starting(site, DP_VIDEO_HOPID, PathName::VIDEO);
    let walked = walk::tally(tables, video.stand)?;
    let Some(w) = walked else {
        return Ok(None);
    };
    aux(tables, site, 1 + path_words(w.hops))
}

// A ring's tunnel of one path.
fn one_path(words: usize, start: Start) -> Plan
    ensures { result ≡ one_path words start }
{
    Plan {
        kind: TunnelType::Dma,
        closed: false,
        words,
        starts: Starts::One(start),
    }
}

// A ring's tunnel without a DMA TX path, by what the search for its receive path came to.
fn receive_alone(received: Result<Received, WalkError>) -> Result<Option<Plan>, WalkError>
    ensures { ((tables : Tables) (ring : ℕ) → Receives tables ring received → Draws tables 0 (λ x. ring_by x ring alone_plan) result) × (words_by result ≤ 1048576) }
{
    let found = received?;
    match found {
        Received::Lost => Ok(None),
        Received::Nothing => Ok(None),
        Received::Path(p) => {
            let start = Start {
                stand: p.start,
                name: PathName::DMA_RX,
            };
            Ok(Some(one_path(1 + path_words(p.hops), start)))
        }
    }
}

// A ring's tunnel whose head and DMA TX path have so many words.
fn receive_with(
    stand: Stand,
    words: usize,
    received: Result<Received, WalkError>,
) -> Result<Option<Plan>, WalkError>
    requires { words ≤ 131072 }
    ensures { ((tables : Tables) → Receives tables stand.hop_id received → Draws tables 0 (λ x. ring_by x stand.hop_id (with_plan stand words)) result) × (words_by result ≤ 1048576) }
{
    let tx = Start {
        stand,
        name: PathName::DMA_TX,
    };
    let found = received?;
    match found {
        Received::Lost => Ok(None), // and its DMA TX path with it
        Received::Nothing => Ok(Some(one_path(words, tx))),
        Received::Path(p) => {
            let rx = Start {
                stand: p.start,
                name: PathName::DMA_RX,
            };
            let leaves = Site {
                place: p.out_place,
                adapter: p.out_adapter,
            };
            let from = Site {
                place: stand.place,
                adapter: stand.adapter,
            };
            Ok(Some(Plan {
                kind: TunnelType::Dma,
                closed: same(leaves, from),
                words: words + path_words(p.hops),
                starts: Starts::Two {
                    first: tx,
                    last: rx,
                },
            }))
        }
    }
}

// A ring's tunnel: DMA TX from the adapter, and the receive path of the ring, which was sought before. Refused first by the former.
pub fn one_dma(
    tables: &Tables,
    stand: Stand,
    received: Result<Received, WalkError>,
) -> Result<Option<Plan>, WalkError>
    ensures { RingPlans tables.now stand.place stand.adapter stand.hop_id received result }
{
    let walked = walk::tally(tables, stand)?;
    let Some(w) = walked else {
        return receive_alone(received);
    };
    receive_with(stand, 1 + path_words(w.hops), received)
}
