// Discovery (module 7, `Tunnel::discover`) on the tables that a survey is loaded to: a tally first, and with it a draft of the words; then the words.
#![tactic(auto)]

ghost use Rattle.std.specs.Prelude.{ℕ, ◌+◌, ◌*◌, ◌-◌, ◌≤◌, ◌<◌, ◌≡◌, true, false, cond, List, length, get_or, position, option_copied, Some, Ok};
ghost use Rattle.usb4.specs.Numbers.{tunnel_number, type_number};
ghost use Rattle.adapter.specs.Adapter.{facts_row};
ghost use Rattle.receive.specs.Tables.{is_path, Receives, Searches};
ghost use Rattle.tunnel.specs.Tunnels.{discover, one_dma};
ghost use Rattle.tunnel.specs.Plans.{Plans, start_as};
ghost use Rattle.discovery.specs.Tables.{Discovered};
ghost use Rattle.discovery.specs.Work.{PathPut, PlanPut, Marked, Unmarked, Spared, Resting, Idle, Quiet, mark_of, Known, Told, under, NotePath, among, out_hops, Drafted, Tallies, RingPut, RingsPut, OneAnswered, Answered, ring_list, dma_by, tunnel_by, tally_of, rings_end};
ghost use Rattle.refusal.specs.Refusal.{field_at};

use adapter::Facts;
use path::PathName;
use receive::{ReceivePath, Received, Searched};
use refusal::{Fault, FieldError, Refusal, Site, WalkError};
use tables::{Stand, Tables};
use tunnel::{Plan, Start, Starts};
use usb4::{AdapterType, State, TunnelType};

// No survey loads to more.
const MOST_ENTRIES: usize = 4096;

const MOST_DEVICES: usize = 4096;

// The rings of a host interface, an adapter of the device at a place, with what the search for ring 65,535 came to, and its notes, if they tell of all rings.
#[derive(Clone, Copy)]
struct HostRings<'a> {
    tables: Tables<'a>,
    site: Site,
    notes: Option<&'a [u64]>,
    last: Result<Received, WalkError>,
}

// The head word of a tunnel.
fn tunnel_word(kind: TunnelType, closed: bool, paths: u8) -> u32
    ensures { result ≡ 8 * 268435456 + cond closed 65536 0 + paths * 256 + tunnel_number kind }
{
    let word = 2147483648 + (paths as u32) * 256 + u32::from(kind);
    if closed {
        return word + 65536;
    }
    word
}

// Writes a path from a place of the output on; the place after it.
fn put_start(tables: &Tables, start: Start, output: &mut [u32], at: usize) -> usize
    requires { at ≤ length output.old }
    ensures { PathPut tables.now (start_as start) at output.old result output.new }
{
    let words = path::put_walk(tables, start.stand, start.name, &mut output[at..]);
    at + words
}

// Writes a planned tunnel from a place of the output on; the place after it.
fn put_plan(tables: &Tables, plan: Option<Plan>, output: &mut [u32], at: usize) -> usize
    requires { at ≤ length output.old }
    ensures { PlanPut tables.now plan at output.old result output.new }
{
    let Some(p) = plan else {
        return at;
    };
    if output.len() <= at {
        return at;
    }
    match p.starts {
        Starts::One(start) => {
            output[at] = tunnel_word(p.kind, p.closed, 1);
            put_start(tables, start, output, at + 1)
        }
        Starts::Two { first, last } => {
            output[at] = tunnel_word(p.kind, p.closed, 2);
            let a = put_start(tables, first, output, at + 1);
            put_start(tables, last, output, a)
        }
        Starts::Three {
            first,
            second,
            last,
        } => {
            output[at] = tunnel_word(p.kind, p.closed, 3);
            let a = put_start(tables, first, output, at + 1);
            let b = put_start(tables, second, output, a);
            put_start(tables, last, output, b)
        }
    }
}

// The words of a planned tunnel.
fn tally_plan(plan: Option<Plan>) -> usize
    ensures { result ≡ tally_of plan }
{
    match plan {
        None => 0,
        Some(p) => p.words,
    }
}

// Where the rings of a host interface end: no entry has a HopID above 65,535.
fn rings_end(most: u32) -> u32
    ensures { result ≡ rings_end most }
{
    if 65535 < most {
        return 65536;
    }
    most + 1
}

// Whether an entry leaves by a HopID.
fn leaves_by(entries: &[u64], hop: u16) -> bool
    ensures { result ≡ among hop (out_hops entries.now) }
{
    let wanted = hop as u64;
    for &entry in entries {
        if entry % 65536 == wanted {
            return true;
        }
    }
    false
}

// Says yes only where the search for a receive path is not refused for a ring that no entry leaves by. It goes alike for all of these, so one is asked: 65,535, which no ring of a survey by our descriptions is.
fn is_quiet(tables: &Tables, found: Result<Received, WalkError>) -> bool
    ensures { Receives tables.now 65535 found → result ≡ true → Quiet tables.now }
{
    if leaves_by(tables.entries, 65535) {
        return false;
    }
    match found {
        Ok(Received::Nothing) => true,
        Ok(Received::Lost) => true,
        Ok(Received::Path(_)) => false,
        Err(_) => false,
    }
}

// Where a ring's mark stands: those from 2,047 on have one mark together. By our descriptions there are no more, since HopIDs have 11 bits.
fn mark_of(ring: usize) -> usize
    ensures { (result ≡ mark_of ring) × (result ≤ 2047) }
{
    if 2047 < ring {
        return 2047;
    }
    ring
}

// Unmarks a ring.
fn unmark(idle: &mut [bool], ring: usize)
    ensures { Unmarked (mark_of ring) idle.old idle.new }
{
    let i = mark_of(ring);
    if idle.len() <= i {
        return;
    }
    idle[i] = false;
}

// Unmarks the ring that an entry leaves by and, where it is an entry of the owner (place x 256 + adapter), the one at which it stands.
fn unmark_used(idle: &mut [bool], entry: u64, owner: u64)
    ensures { Spared entry owner idle.old idle.new }
{
    unmark(idle, (entry % 65536) as usize);
    if entry / 1099511627776 != owner {
        return;
    }
    unmark(idle, (entry / 16777216 % 65536) as usize);
}

// Unmarks the rings that entries leave by, and those at which entries of an adapter of the device at a place stand.
fn unmark_all(entries: &[u64], site: Site, idle: &mut [bool])
    ensures { Resting entries.now site.place site.adapter idle.new }
{
    let owner = (site.place % 65536) as u64 * 256 + site.adapter as u64;
    for &entry in entries {
        unmark_used(idle, entry, owner);
    }
}

// The rings that are known to have no tunnel before each is asked, marked.
fn at_rest(rings: &HostRings) -> [bool; 2048]
    ensures { Receives rings.now.tables 65535 rings.now.last → Idle rings.now.tables rings.now.site.place rings.now.site.adapter result }
{
    if !is_quiet(&rings.tables, rings.last) {
        return [false; 2048];
    }
    let mut idle = [true; 2048];
    unmark_all(rings.tables.entries, rings.site, &mut idle);
    idle
}

// Whether a search found a path.
fn is_path(found: Result<Received, WalkError>) -> bool
    ensures { result ≡ is_path found }
{
    match found {
        Ok(Received::Path(_)) => true,
        Ok(Received::Nothing) => false,
        Ok(Received::Lost) => false,
        Err(_) => false,
    }
}

// The notes of a search, if they tell of all rings: those of one that found a path don't, nor do as many as it had room for.
fn known_notes<const ROOM: usize>(searched: &Searched<ROOM>) -> Option<&[u64]>
    ensures { Known ROOM searched.now.found searched.now.noted searched.now.notes (option_copied result) }
{
    let noted = searched.noted;
    if ROOM <= noted {
        return None;
    }
    if is_path(searched.found) {
        return None;
    }
    Some(&searched.notes[..noted])
}

// The place of the first note of a path that leaves by a ring.
#[tactic(auto, unfolding(receive::specs::Tables::note_ring))]
fn find_note(notes: &[u64], ring: u16) -> Option<usize>
    ensures { result ≡ position (λ note. under ring note) notes.now }
{
    let wanted = ring as u64;
    notes.iter().position(|note| *note % 65536 == wanted)
}

// The path of a note, which leaves by a ring.
fn noted_path(tables: &Tables, note: u64) -> Result<Received, WalkError>
    ensures { (ring : ℕ) → NotePath tables.now ring note result }
{
    let start = Stand {
        place: (note / 1099511627776 % 65536) as usize,
        adapter: (note / 4294967296 % 256) as u8,
        hop_id: (note / 65536 % 65536) as u16,
    };
    let walked = walk::tally(tables, start)?;
    let Some(w) = walked else {
        return Ok(Received::Nothing);
    };
    Ok(Received::Path(ReceivePath {
        start,
        hops: w.hops,
        out_place: w.place,
        out_adapter: w.adapter,
    }))
}

// The receive path of a ring by notes that tell of all rings, with `last` for the rings that have none.
fn path_by_notes(rings: &HostRings, notes: &[u64], ring: u16) -> Result<Received, WalkError>
    requires { Told rings.now.tables (Some notes.now) rings.now.last }
    ensures { Receives rings.now.tables ring result }
{
    match find_note(notes, ring) {
        Some(i) => noted_path(&rings.tables, notes[i]),
        None => rings.last,
    }
}

// The receive path of a ring: by notes, if there are any that tell; else by a search.
fn received_by(rings: &HostRings, ring: u16) -> Result<Received, WalkError>
    requires { Told rings.now.tables (option_copied rings.now.notes) rings.now.last }
    ensures { Receives rings.now.tables ring result }
{
    let Some(notes) = rings.notes else {
        let searched = receive::receive::<64>(&rings.tables, ring);
        return searched.found;
    };
    path_by_notes(rings, notes, ring)
}

// A ring's tunnel.
fn plan_ring(rings: &HostRings, ring: u16) -> Result<Option<Plan>, WalkError>
    requires { Told rings.now.tables (option_copied rings.now.notes) rings.now.last }
    ensures { Plans rings.now.tables rings.now.site.place (λ x. one_dma x rings.now.site.place rings.now.site.adapter ring) result }
{
    let received = received_by(rings, ring);
    let stand = Stand {
        place: rings.site.place,
        adapter: rings.site.adapter,
        hop_id: ring,
    };
    tunnel::one_dma(&rings.tables, stand, received)
}

// Marks a ring that needs no words, if it has a mark of its own.
fn mark(idle: &mut [bool; 2048], ring: u32, words: usize)
    ensures { Marked ring words idle.old idle.new }
{
    if 0 < words {
        return;
    }
    if 2046 < ring {
        return;
    }
    idle[ring as usize] = true;
}

// The words of the tunnels of rings 1 to `end`, which is left out; the rings that have none are marked, and the words are drafted as far as there is room.
fn tally_rings(
    rings: &HostRings,
    end: u32,
    idle: &mut [bool; 2048],
    draft: &mut [u32],
) -> Result<usize, WalkError>
    requires { (1 ≤ end) × (end ≤ 65536) × Idle rings.now.tables rings.now.site.place rings.now.site.adapter idle.old × Told rings.now.tables (option_copied rings.now.notes) rings.now.last }
    ensures tallies { Tallies rings.now.tables rings.now.site.place rings.now.site.adapter (end - 1) result × Idle rings.now.tables rings.now.site.place rings.now.site.adapter idle.new }
    ensures drafted { Drafted rings.now.tables rings.now.site.place rings.now.site.adapter (end - 1) draft.new }
{
    let mut at: usize = 0;
    let mut need: usize = 0;
    for ring in 1..end {
        if is_idle(idle, ring) {
            continue;
        }
        let plan = plan_ring(rings, ring as u16)?;
        let words = tally_plan(plan);
        need += words;
        mark(idle, ring, words);
        at = put_plan(&rings.tables, plan, draft, at);
    }
    Ok(need)
}

// Whether a ring is marked.
fn is_idle(idle: &[bool; 2048], ring: u32) -> bool
    ensures { result ≡ get_or idle.now (mark_of ring) false }
{
    idle[mark_of(ring as usize)]
}

// Writes the tunnel of a ring from a place of the output on, unless the ring is marked; the place after it.
fn put_ring(
    rings: &HostRings,
    ring: u32,
    idle: &[bool; 2048],
    output: &mut [u32],
    at: usize,
) -> usize
    requires { (ring < 65536) × (at ≤ length output.old) × Idle rings.now.tables rings.now.site.place rings.now.site.adapter idle.now × Told rings.now.tables (option_copied rings.now.notes) rings.now.last }
    ensures { RingPut rings.now.tables rings.now.site.place rings.now.site.adapter ring at output.old result output.new }
{
    if is_idle(idle, ring) {
        return at;
    }
    let Ok(plan) = plan_ring(rings, ring as u16) else {
        return at;
    };
    put_plan(&rings.tables, plan, output, at)
}

// Writes the tunnels of rings 1 to `end`, which is left out, until the output is full.
fn put_rings(rings: &HostRings, end: u32, idle: &[bool; 2048], output: &mut [u32])
    requires { (1 ≤ end) × (end ≤ 65536) × Idle rings.now.tables rings.now.site.place rings.now.site.adapter idle.now × Told rings.now.tables (option_copied rings.now.notes) rings.now.last }
    ensures { RingsPut rings.now.tables rings.now.site.place rings.now.site.adapter (end - 1) output.old output.new }
{
    let mut at: usize = 0;
    for ring in 1..end {
        if output.len() <= at {
            return;
        }
        at = put_ring(rings, ring, idle, output, at);
    }
}

// Writes the tunnels of rings 1 to `end`, which is left out: as they were drafted, if there was room for them.
fn put_tallied(rings: &HostRings, end: u32, idle: &[bool; 2048], draft: &[u32], output: &mut [u32])
    requires { (1 ≤ end) × (end ≤ 65536) × Idle rings.now.tables rings.now.site.place rings.now.site.adapter idle.now × Drafted rings.now.tables rings.now.site.place rings.now.site.adapter (end - 1) draft.now × Told rings.now.tables (option_copied rings.now.notes) rings.now.last }
    ensures { RingsPut rings.now.tables rings.now.site.place rings.now.site.adapter (end - 1) output.old output.new }
{
    let need = output.len();
    if need <= draft.len() {
        output.copy_from_slice(&draft[..need]);
        return;
    }
    put_rings(rings, end, idle, output);
}

// The tunnel of an adapter that has one at most.
fn put_one(
    tables: &Tables,
    plan: Option<Plan>,
    output: &mut [u32],
) -> Result<Option<usize>, Refusal>
    ensures { OneAnswered tables.now plan output.old result output.new }
{
    let Some(p) = plan else {
        return Ok(None);
    };
    let words = p.words;
    if output.len() < words {
        return Err(Refusal::Short(words));
    }
    put_plan(tables, plan, &mut output[..words], 0);
    Ok(Some(words))
}

// The tunnels of rings 1 to `end`, which is left out, by what the search for ring 65,535 noted and came to.
fn put_noted(rings: &HostRings, end: u32, output: &mut [u32]) -> Result<Option<usize>, Refusal>
    requires { (1 ≤ end) × (end ≤ 65536) × Told rings.now.tables (option_copied rings.now.notes) rings.now.last × Receives rings.now.tables 65535 rings.now.last }
    ensures { Answered rings.now.tables rings.now.site.place (λ x. ring_list x rings.now.site.place rings.now.site.adapter (end - 1)) output.old result output.new }
{
    let mut idle = at_rest(rings);
    let mut draft = [0u32; 256]; // room for the words of 36 rings with two paths of one hop each
    let need = tally_rings(rings, end, &mut idle, &mut draft)?;
    if output.len() < need {
        return Err(Refusal::Short(need));
    }
    put_tallied(rings, end, &idle, &draft, &mut output[..need]);
    Ok(Some(need))
}

// The same by a search for ring 65,535, whatever it had room for.
fn put_by_search<const ROOM: usize>(
    tables: &Tables,
    site: Site,
    end: u32,
    searched: &Searched<ROOM>,
    output: &mut [u32],
) -> Result<Option<usize>, Refusal>
    requires { (1 ≤ end) × (end ≤ 65536) × Searches ROOM tables.now 65535 searched.now.found searched.now.noted searched.now.notes }
    ensures { Answered tables.now site.place (λ x. ring_list x site.place site.adapter (end - 1)) output.old result output.new }
{
    let rings = HostRings {
        tables: *tables,
        site,
        notes: known_notes(searched),
        last: searched.found,
    };
    put_noted(&rings, end, output)
}

// The same by a search with room for many notes: some 32 KiB of stack, which most surveys needn't pay for.
fn put_far(
    tables: &Tables,
    site: Site,
    end: u32,
    output: &mut [u32],
) -> Result<Option<usize>, Refusal>
    requires { (1 ≤ end) × (end ≤ 65536) }
    ensures { Answered tables.now site.place (λ x. ring_list x site.place site.adapter (end - 1)) output.old result output.new }
{
    let searched = receive::receive::<2048>(tables, 65535);
    put_by_search(tables, site, end, &searched, output)
}

// The same by a search with room for few notes, if they tell of all rings; if not, or where `far` says so, by one with room for many. It calls itself before it calls `put_far`: the compiler puts no large room into the frame of a function that calls itself. Otherwise the room of `put_far` would be in the frame of every answer.
fn put_searched(
    tables: &Tables,
    site: Site,
    end: u32,
    far: bool,
    output: &mut [u32],
) -> Result<Option<usize>, Refusal>
    requires { (1 ≤ end) × (end ≤ 65536) }
    ensures { Answered tables.now site.place (λ x. ring_list x site.place site.adapter (end - 1)) output.old result output.new }
{
    if far {
        return put_far(tables, site, end, output);
    }
    let searched = receive::receive::<64>(tables, 65535);
    if known_notes(&searched).is_none() {
        return put_searched(tables, site, end, true, output);
    }
    put_by_search(tables, site, end, &searched, output)
}

// The tunnels of the rings of a host interface.
fn put_dma(
    tables: &Tables,
    site: Site,
    most: Result<Option<u32>, FieldError>,
    output: &mut [u32],
) -> Result<Option<usize>, Refusal>
    ensures { Answered tables.now site.place (λ x. dma_by x site.place site.adapter (field_at site most)) output.old result output.new }
{
    match most {
        Ok(None) => Ok(None),
        Err(_) => Err(Refusal::Fault(Fault::NoField(site))),
        Ok(Some(largest)) => {
            let end = rings_end(largest);
            put_searched(tables, site, end, false, output)
        }
    }
}

// The tunnel of an adapter that has one at most, by its kind.
fn plan_of(tables: &Tables, site: Site, kind: AdapterType) -> Result<Option<Plan>, WalkError>
    ensures { Plans tables.now site.place (λ x. tunnel_by x site.place site.adapter (type_number kind)) result }
{
    match kind {
        AdapterType::DisplayPortIn => tunnel::display_port(tables, site),
        AdapterType::PcieDown => {
            let pcie = TunnelType::Pcie;
            tunnel::down_and_up(tables, site, pcie, PathName::PCIE_DOWN, PathName::PCIE_UP)
        }
        AdapterType::Usb3Down => {
            let usb3 = TunnelType::Usb3;
            tunnel::down_and_up(tables, site, usb3, PathName::USB3_DOWN, PathName::USB3_UP)
        }
        _ => Ok(None),
    }
}

// By the adapter's kind; a disabled adapter or one of another kind has none, and a host interface is always enabled.
fn of_kind(
    tables: &Tables,
    place: usize,
    facts: Facts,
    output: &mut [u32],
) -> Result<Option<usize>, Refusal>
    ensures { Answered tables.now place (λ x. discover x place (facts_row place facts)) output.old result output.new }
{
    let site = Site {
        place,
        adapter: facts.number,
    };
    let kind = facts.kind;
    if let AdapterType::HostInterface = kind {
        let most = facts.max_hop;
        return put_dma(tables, site, most, output);
    }
    let state = facts.state;
    let State::Enabled = state else {
        return Ok(None);
    };
    let plan = plan_of(tables, site, kind)?;
    put_one(tables, plan, output)
}

// The tunnels from an adapter of the device at a place: how many words they have, or the words needed (2); or no list.
pub fn discover_in(
    tables: &Tables,
    site: Site,
    output: &mut [u32],
) -> Result<Option<usize>, Refusal>
    ensures { Discovered tables.now site.place site.adapter output.old result output.new }
{
    if MOST_ENTRIES < tables.entries.len() {
        return Ok(None);
    }
    if MOST_DEVICES < tables.devices.len() {
        return Ok(None);
    }
    let Some(_) = routers::find_device(tables, site.place) else {
        return Err(Refusal::Missing);
    };
    let Some(facts) = search::find_adapter(tables.adapters, site.place, site.adapter) else {
        return Err(Refusal::Missing);
    };
    of_kind(tables, site.place, facts, output)
}
