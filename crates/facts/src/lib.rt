// An adapter by the word that holds it.
#![tactic(auto)]

ghost use Rattle.std.specs.Prelude.{◌/◌, ◌<◌, ◌≡◌};
ghost use Rattle.refusal.specs.declared.Site.{Site};
ghost use Rattle.adapter.specs.Adapter.{facts_row};
ghost use Rattle.tables.specs.Packed.{type_by, state_by, speed_by, number_by, adapter_word};
ghost use Rattle.refusal.specs.Refusal.{field_at};

use adapter::Facts;
use refusal::FieldError;
use usb4::{AdapterType, Speed, State};

// A kind by its number. A kind, a state and a speed have codes of registers besides (`codes`): so these have names, and are no `From<u64>`.
#[tactic(auto, unfolding(tables::specs::Packed::type_by))]
fn type_by(number: u64) -> AdapterType
    ensures { result ≡ type_by number }
{
    match number {
        1 => AdapterType::Inactive,
        2 => AdapterType::Lane,
        3 => AdapterType::HostInterface,
        4 => AdapterType::DisplayPortIn,
        5 => AdapterType::DisplayPortOut,
        6 => AdapterType::PcieDown,
        7 => AdapterType::PcieUp,
        8 => AdapterType::Usb3Down,
        9 => AdapterType::Usb3Up,
        10 => AdapterType::Usb3GenTDown,
        11 => AdapterType::Usb3GenTUp,
        _ => AdapterType::Unknown,
    }
}

// A state by its number.
#[tactic(auto, unfolding(tables::specs::Packed::state_by))]
fn state_by(number: u64) -> State
    ensures { result ≡ state_by number }
{
    match number {
        1 => State::Disabled,
        2 => State::Enabled,
        3 => State::Training,
        4 => State::Cl0,
        5 => State::Cl0sTx,
        6 => State::Cl0sRx,
        7 => State::Cl1,
        8 => State::Cl2,
        9 => State::Cld,
        _ => State::Unknown,
    }
}

// A speed by its number, or that it is refused.
#[tactic(auto, unfolding(tables::specs::Packed::speed_by))]
fn speed_by(number: u64) -> Result<Speed, FieldError>
    ensures { (s : Site) → field_at s result ≡ speed_by s number }
{
    match number {
        1 => Ok(Speed::Gen2),
        2 => Ok(Speed::Gen3),
        3 => Ok(Speed::Gen4),
        4 => Err(FieldError::NoField), // 6 where it is asked for
        _ => Ok(Speed::Unknown),
    }
}

// A largest HopID by its code.
#[tactic(auto, unfolding(tables::specs::Packed::number_by))]
fn max_hop_by(code: u64) -> Result<Option<u32>, FieldError>
    requires { code < 1048576 }
    ensures { (s : Site) → field_at s result ≡ number_by s code }
{
    match code {
        0 => Ok(None),
        1 => Err(FieldError::NoField),
        _ => Ok(Some((code - 2) as u32)),
    }
}

// The adapter that a word holds.
pub fn facts_of(w: u64) -> Facts
    ensures { facts_row (w / 281474976710656) result ≡ adapter_word w }
{
    Facts {
        number: (w / 1099511627776 % 256) as u8,
        kind: type_by(w / 65536 % 16),
        state: state_by(w / 4096 % 16),
        lane0: w / 16 % 16 == 1,
        lane1: w % 16 == 1,
        speed: speed_by(w / 256 % 16),
        max_hop: max_hop_by(w / 1048576 % 1048576),
    }
}
