// Adapters (module 5): what one adapter of survey words is loaded to, and its capabilities. Any words will do.
#![tactic(auto)]

ghost use Rattle.std.specs.Prelude.{◌≡◌, ◌&&◌, not, ℕ};
ghost use Rattle.refusal.specs.declared.Site.{Site};
ghost use Rattle.util.specs.Text.{bytes_of};
ghost use Rattle.layout.specs.Description.{descriptions_of};
ghost use Rattle.listing.specs.After.{after, adapter_at};
ghost use Rattle.named.specs.Named.{registers_in, register_named};
ghost use Rattle.adapter.specs.Adapter.{registers_of, find_cap, is_lane, is_lane0, max_hop_in, decode_of, decoded_outcome, facts_row};
ghost use Rattle.adapter.specs.Work.{ThirdOf, KindIs, row_by};
ghost use Rattle.refusal.specs.Refusal.{field_at};

use named::Registers;
use refusal::{Fault, FieldError, Site};
use usb4::{AdapterType, Speed, State};

// The capability of USB4 ports.
const ADP_CAP_ID_USB4: u32 = 0x6;

// A part of an adapter's registers, by indices: from start up to end, which is left out.
#[derive(Clone, Copy)]
pub struct Part {
    pub start: usize,
    pub end: usize,
}

// What is known of an adapter.
#[derive(Clone, Copy)]
pub struct Facts {
    pub number: u8,
    pub kind: AdapterType,
    pub state: State,
    pub lane0: bool,
    pub lane1: bool,
    pub speed: Result<Speed, FieldError>,
    pub max_hop: Result<Option<u32>, FieldError>,
}

// Where a path entry leads.
#[derive(Clone, Copy)]
pub struct EntryOut {
    pub out_adapter: u8,
    pub out_hop: u16,
}

// Where the registers of the adapter whose head stands at a place begin; the length where they were not read.
fn registers_from(survey: &[u32], at: usize) -> usize
    ensures { (after survey.now result).registers ≡ registers_of (adapter_at survey.now at) }
{
    if layout::word_at(survey, at) / 256 % 2 == 0 {
        return survey.len();
    }
    at + 1
}

// The value of the third register from a place on.
fn third_value(survey: &[u32], from: usize) -> Option<u32>
    ensures { ThirdOf (after survey.now from).registers result }
{
    let first = listing::next_register(survey, from, false);
    if survey.len() <= first {
        return None;
    }
    let second = listing::next_register(survey, first + 4, false);
    if survey.len() <= second {
        return None;
    }
    let third = listing::next_register(survey, second + 4, false);
    if survey.len() <= third {
        return None;
    }
    Some(layout::word_at(survey, third + 3))
}

// The kind of the adapter whose head stands at a place.
fn parse_kind(survey: &[u32], at: usize) -> Option<AdapterType>
    ensures { KindIs (adapter_at survey.now at) result }
{
    if layout::word_at(survey, at) / 256 % 2 == 0 {
        return Some(AdapterType::Inactive);
    }
    let Some(value) = third_value(survey, at + 1) else {
        return None;
    };
    Some(codes::adapter_type(util::bits(value, 0, 23)))
}

// The registers from the first with a cap id after index 0 up to the last, if there are two.
fn find_cap(survey: &[u32], from: usize, cap: u32) -> Option<Part>
    ensures { result ≡ find_cap cap (after survey.now from).registers }
{
    let first = listing::next_register(survey, from, false);
    if survey.len() <= first {
        return None;
    }
    let mut i = listing::next_register(survey, first + 4, false);
    let mut index: usize = 1;
    let mut start: usize = 0;
    let mut end: usize = 0;
    while i < survey.len() {
        let next = index + 1;
        if layout::word_at(survey, i + 1) % 65536 == cap {
            if start < 1 {
                start = index;
            }
            end = index;
        }
        index = next;
        i = listing::next_register(survey, i + 4, false);
    }
    if end <= start {
        return None;
    }
    Some(Part { start, end })
}

// Whether an adapter of a kind and number is lane 0.
fn is_lane0(survey: &[u32], from: usize, usb4: bool, kind: AdapterType, number: u8) -> bool
    ensures { result ≡ is_lane0 usb4 kind number (after survey.now from).registers }
{
    if kind != AdapterType::Lane {
        return false;
    }
    if number == 1 {
        return true;
    }
    if number == 3 {
        return true;
    }
    if !usb4 {
        return false;
    }
    find_cap(survey, from, ADP_CAP_ID_USB4).is_some()
}

// A lane that isn't lane 0 is lane 1.
fn is_lane1(kind: AdapterType, lane0: bool) -> bool
    ensures { result ≡ is_lane kind && not lane0 }
{
    kind == AdapterType::Lane && !lane0
}

// The largest HopID of an adapter.
fn max_hop(registers: &Registers) -> Result<Option<u32>, FieldError>
    ensures { (s : Site) → field_at s result ≡ max_hop_in s (register_named registers.now (bytes_of "ADP_CS_5")) }
{
    let Some(at) = registers.named(b"ADP_CS_5") else {
        return Ok(None);
    };
    let Ok(most) = registers.field(at, b"Max Input HopID") else {
        return Err(FieldError::NoField);
    };
    if 65535 < most {
        return Ok(None);
    }
    Ok(Some(most))
}

// What is known of an adapter of a number in a state.
fn facts_of(registers: &Registers, usb4: bool, number: u8, state: State) -> Facts
    ensures { (p : ℕ) → facts_row p result ≡ row_by (descriptions_of registers.now.descriptions.now) p usb4 number registers.now.kind (registers_in registers.now) state }
{
    let kind = registers.kind;
    let lane0 = is_lane0(registers.survey, registers.from, usb4, kind, number);
    let lane1 = is_lane1(kind, lane0);
    let speed = speed::link_speed(registers, state);
    let max_hop = max_hop(registers);
    Facts {
        number,
        kind,
        state,
        lane0,
        lane1,
        speed,
        max_hop,
    }
}

// What the adapter whose head stands at a place is loaded to, but for its path entries: 5, then its state, 6 or 8 as met.
pub fn decode(
    descriptions: &[u32],
    survey: &[u32],
    at: usize,
    usb4: bool,
    place: usize,
) -> Result<Facts, Fault>
    ensures { decoded_outcome place result ≡ decode_of (descriptions_of descriptions.now) place usb4 (adapter_at survey.now at) }
{
    let number = (layout::word_at(survey, at) % 256) as u8;
    let site = Site {
        place,
        adapter: number,
    };
    let Some(kind) = parse_kind(survey, at) else {
        return Err(Fault::FewRegisters(site));
    };
    let registers = Registers {
        descriptions,
        survey,
        from: registers_from(survey, at),
        kind,
    };
    let state = state::parse_state(&registers, site)?;
    Ok(facts_of(&registers, usb4, number, state))
}

// The capability part of the adapter whose head stands at a place.
pub fn capability(survey: &[u32], at: usize, cap: u32) -> Option<Part>
    ensures { result ≡ find_cap cap (registers_of (adapter_at survey.now at)) }
{
    find_cap(survey, registers_from(survey, at), cap)
}
