// An adapter's link speed (module 5), from its registers in survey words. Any words will do.
#![tactic(auto)]

ghost use Rattle.std.specs.Prelude.{◌≡◌};
ghost use Rattle.refusal.specs.declared.Site.{Site};
ghost use Rattle.layout.specs.Description.{descriptions_of};
ghost use Rattle.named.specs.Named.{registers_in};
ghost use Rattle.state.specs.State.{has_speed, link_speed};
ghost use Rattle.refusal.specs.Refusal.{field_at};

use named::Registers;
use refusal::FieldError;
use usb4::{AdapterType, Speed, State};

// Whether a lane in a state has a speed.
fn has_speed(state: State) -> bool
    ensures { result ≡ has_speed state }
{
    matches!(
        state,
        State::Cl0 | State::Cl0sTx | State::Cl0sRx | State::Cl1 | State::Cl2
    )
}

// The link speed of an adapter in a state, by its kind and its registers.
pub fn link_speed(registers: &Registers, state: State) -> Result<Speed, FieldError>
    ensures { (s : Site) → field_at s result ≡ link_speed (descriptions_of registers.now.descriptions.now) s registers.now.kind state (registers_in registers.now) }
{
    if registers.kind != AdapterType::Lane {
        return Ok(Speed::Unknown);
    }
    if !has_speed(state) {
        return Ok(Speed::Unknown);
    }
    let Some(at) = registers.named(b"LANE_ADP_CS_1") else {
        return Ok(Speed::Unknown);
    };
    let Ok(code) = registers.field(at, b"Current Link Speed") else {
        return Err(FieldError::NoField);
    };
    Ok(codes::speed_of(code))
}
