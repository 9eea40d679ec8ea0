// An adapter's state (module 5), from its registers in survey words. Any words will do.
#![tactic(auto)]

ghost use Rattle.std.specs.Prelude.{◌<◌, ◌≡◌};
ghost use Rattle.refusal.specs.Outcome.{value, bind};
ghost use Rattle.refusal.specs.declared.Site.{Site};
ghost use Rattle.util.specs.Text.{bytes_of};
ghost use Rattle.usb4.specs.Numbers.{type_number};
ghost use Rattle.usb4.specs.declared.State.TheVariants as state;
ghost use Rattle.layout.specs.Description.{descriptions_of};
ghost use Rattle.named.specs.Named.{registers_in, register_named, at_places, read_flag, sited};
ghost use Rattle.refusal.specs.Refusal.{field_read, fault_outcome};
ghost use Rattle.state.specs.State.{by_offset, both_set, enabled_if, by_flag, by_flags, lane_state, port_set, ports, gen_tState, state_of};
ghost use Rattle.state.specs.Work.{OffsetAt};

use named::{NamedAt, Registers};
use naming::{Sought, Space};
use refusal::{Fault, FieldError, Site};
use usb4::{AdapterType, State};

// Two flags of one register: the second is read only if the first is set.
fn two_flags(
    registers: &Registers,
    at: NamedAt,
    first: &[u8],
    second: &[u8],
) -> Result<bool, FieldError>
    ensures { field_read result ≡ both_set (read_flag (at_places registers.now at) first.now) (read_flag (at_places registers.now at) second.now) }
{
    let set = registers.flag(at, first)?;
    if !set {
        return Ok(false);
    }
    registers.flag(at, second)
}

// The state of an adapter that is enabled by a flag.
fn enabled_by(flag: Result<bool, FieldError>, site: Site) -> Result<State, Fault>
    ensures { fault_outcome result ≡ bind (sited site (field_read flag)) (λ b. value (enabled_if b)) }
{
    match flag {
        Err(FieldError::NoField) => Err(Fault::NoField(site)),
        Ok(false) => Ok(State::Disabled),
        Ok(true) => Ok(State::Enabled),
    }
}

// The state of an adapter that lacks the register that tells it.
fn untold() -> Result<State, Fault>
    ensures { fault_outcome result ≡ value state.Unknown }
{
    Ok(State::Unknown)
}

// By two flags of a register by name.
fn flags_state(
    registers: &Registers,
    name: &[u8],
    first: &[u8],
    second: &[u8],
    site: Site,
) -> Result<State, Fault>
    ensures { fault_outcome result ≡ by_flags site first.now second.now (register_named registers.now name.now) }
{
    let Some(at) = registers.named(name) else {
        return untold();
    };
    enabled_by(two_flags(registers, at, first, second), site)
}

// A DisplayPort adapter's state.
fn display_port_state(registers: &Registers, site: Site) -> Result<State, Fault>
    ensures { fault_outcome result ≡ by_flags site (bytes_of "VE") (bytes_of "AE") (register_named registers.now (bytes_of "ADP_DP_CS_0")) }
{
    flags_state(registers, b"ADP_DP_CS_0", b"VE", b"AE", site)
}

// A PCIe adapter's state.
fn pcie_state(registers: &Registers, site: Site) -> Result<State, Fault>
    ensures { fault_outcome result ≡ by_flag site (bytes_of "PE") (register_named registers.now (bytes_of "ADP_PCIE_CS_0")) }
{
    let Some(at) = registers.named(b"ADP_PCIE_CS_0") else {
        return untold();
    };
    enabled_by(registers.flag(at, b"PE"), site)
}

// A USB 3 adapter's state, Gen T apart.
fn usb3_state(registers: &Registers, site: Site) -> Result<State, Fault>
    ensures { fault_outcome result ≡ by_flags site (bytes_of "PE") (bytes_of "V") (register_named registers.now (bytes_of "ADP_USB3_GX_CS_0")) }
{
    flags_state(registers, b"ADP_USB3_GX_CS_0", b"PE", b"V", site)
}

// A lane's state.
fn lane_state(registers: &Registers, site: Site) -> Result<State, Fault>
    ensures { fault_outcome result ≡ lane_state site (register_named registers.now (bytes_of "LANE_ADP_CS_1")) }
{
    let Some(at) = registers.named(b"LANE_ADP_CS_1") else {
        return untold();
    };
    let Ok(code) = registers.field(at, b"Adapter State") else {
        return Err(Fault::NoField(site));
    };
    Ok(codes::lane_state(code))
}

// Where the first register at an offset stands; the length where there is none.
fn by_offset(survey: &[u32], from: usize, offset: u32) -> usize
    ensures { OffsetAt survey.now from offset result }
{
    let mut i = listing::next_register(survey, from, false);
    while i < survey.len() {
        if survey[i] % 65536 == offset {
            return i;
        }
        i = listing::next_register(survey, i + 4, false);
    }
    survey.len()
}

// Whether a Gen T port is enabled, by the register at its offset: PE, then V.
fn port_set(registers: &Registers, offset: u32) -> Result<bool, FieldError>
    ensures { (s : Site) → sited s (field_read result) ≡ port_set (descriptions_of registers.now.descriptions.now) s (type_number registers.now.kind) (registers_in registers.now) (by_offset offset (registers_in registers.now)) }
{
    let i = by_offset(registers.survey, registers.from, offset);
    if registers.survey.len() <= i {
        return Ok(false);
    }
    let ids = layout::word_at(registers.survey, i + 1);
    let q = Sought {
        space: Space::Adapter as u32,
        kind: u32::from(registers.kind),
        offset: ids / 65536 % 65536,
        cap: ids % 65536,
        vs: layout::word_at(registers.survey, i + 2),
    };
    let Some(group) = naming::find_group(registers.descriptions, q) else {
        return Err(FieldError::NoField);
    };
    two_flags(registers, NamedAt { register: i, group }, b"PE", b"V")
}

// The ports of a Gen T adapter, one after another; an enabled one ends it, and so does an offset past 65,535.
fn port_states(registers: &Registers, cap: u32, count: u32, site: Site) -> Result<State, Fault>
    requires { (cap < 65536) × (count < 65536) }
    ensures { fault_outcome result ≡ ports (descriptions_of registers.now.descriptions.now) site (type_number registers.now.kind) (registers_in registers.now) cap 0 count }
{
    for port in 0..count {
        let offset = cap + 3 + 2 * port;
        if 65535 < offset {
            return Err(Fault::GenTOffset(site));
        }
        match port_set(registers, offset) {
            Err(FieldError::NoField) => {
                return Err(Fault::NoField(site));
            }
            Ok(true) => {
                return Ok(State::Enabled);
            }
            Ok(false) => {}
        }
    }
    Ok(State::Disabled)
}

// The state of a Gen T adapter of a kind.
fn gen_t_state(registers: &Registers, site: Site) -> Result<State, Fault>
    ensures { fault_outcome result ≡ gen_tState (descriptions_of registers.now.descriptions.now) site (type_number registers.now.kind) (registers_in registers.now) (register_named registers.now (bytes_of "ADP_USB3_GT_CS_0")) }
{
    let Some(at) = registers.named(b"ADP_USB3_GT_CS_0") else {
        return untold();
    };
    let Ok(count) = registers.field(at, b"Gen T Port Count") else {
        return Err(Fault::NoField(site));
    };
    let cap = layout::word_at(registers.survey, at.register) % 65536;
    port_states(registers, cap, count % 65536, site)
}

// The state of an adapter by its kind and its registers: 6 or 8 as met.
pub fn parse_state(registers: &Registers, site: Site) -> Result<State, Fault>
    ensures { fault_outcome result ≡ state_of (descriptions_of registers.now.descriptions.now) site registers.now.kind (registers_in registers.now) }
{
    match registers.kind {
        AdapterType::Unknown | AdapterType::Inactive => Ok(State::Unknown),
        AdapterType::Lane => lane_state(registers, site),
        AdapterType::HostInterface => Ok(State::Enabled),
        AdapterType::DisplayPortIn | AdapterType::DisplayPortOut => {
            display_port_state(registers, site)
        }
        AdapterType::PcieDown | AdapterType::PcieUp => pcie_state(registers, site),
        AdapterType::Usb3Down | AdapterType::Usb3Up => usb3_state(registers, site),
        AdapterType::Usb3GenTDown | AdapterType::Usb3GenTUp => gen_t_state(registers, site),
    }
}
