// The codes that registers hold, and what each stands for. An adapter's type, its state and its speed have another number besides, which tables hold (`facts`): so each function has a name, since a `From<u32>` would not say which of the two is read.
#![tactic(auto)]

ghost use Rattle.std.specs.Prelude.{◌≡◌};
ghost use Rattle.usb4.specs.Codes.{type_of, lane_state_of, speed_of};

use usb4::{AdapterType, Speed, State};

// The codes of adapter types, bits 0 to 23 of ADP_CS_2.
pub const ADP_CS_2_TYPE_INACTIVE: u32 = 0x000000;

pub const ADP_CS_2_TYPE_LANE: u32 = 0x000001;

pub const ADP_CS_2_TYPE_NHI: u32 = 0x000002;

pub const ADP_CS_2_TYPE_DP_IN: u32 = 0x0e0101;

pub const ADP_CS_2_TYPE_DP_OUT: u32 = 0x0e0102;

pub const ADP_CS_2_TYPE_PCIE_DOWN: u32 = 0x100101;

pub const ADP_CS_2_TYPE_PCIE_UP: u32 = 0x100102;

pub const ADP_CS_2_TYPE_USB3_DOWN: u32 = 0x200101;

pub const ADP_CS_2_TYPE_USB3_UP: u32 = 0x200102;

pub const ADP_CS_2_TYPE_USB3_GENT_DOWN: u32 = 0x210101;

pub const ADP_CS_2_TYPE_USB3_GENT_UP: u32 = 0x210102;

// The codes of lane states, bits 26 to 29 of LANE_ADP_CS_1.
pub const LANE_ADP_CS_1_ADAPTER_STATE_DISABLED: u32 = 0x00;

pub const LANE_ADP_CS_1_ADAPTER_STATE_TRAINING: u32 = 0x01;

pub const LANE_ADP_CS_1_ADAPTER_STATE_CL0: u32 = 0x02;

pub const LANE_ADP_CS_1_ADAPTER_STATE_CL0S_TX: u32 = 0x03;

pub const LANE_ADP_CS_1_ADAPTER_STATE_CL0S_RX: u32 = 0x04;

pub const LANE_ADP_CS_1_ADAPTER_STATE_CL1: u32 = 0x05;

pub const LANE_ADP_CS_1_ADAPTER_STATE_CL2: u32 = 0x06;

pub const LANE_ADP_CS_1_ADAPTER_STATE_CLD: u32 = 0x07;

// The codes of link speeds, bits 16 to 19 of LANE_ADP_CS_1.
pub const LANE_ADP_CS_1_CURRENT_SPEED_GEN2: u32 = 0x08;

pub const LANE_ADP_CS_1_CURRENT_SPEED_GEN3: u32 = 0x04;

pub const LANE_ADP_CS_1_CURRENT_SPEED_GEN4: u32 = 0x02;

// The adapter type of a code.
#[tactic(auto, unfolding(usb4::specs::Codes::type_of))]
pub fn adapter_type(code: u32) -> AdapterType
    ensures { result ≡ type_of code }
{
    match code {
        ADP_CS_2_TYPE_INACTIVE => AdapterType::Inactive,
        ADP_CS_2_TYPE_LANE => AdapterType::Lane,
        ADP_CS_2_TYPE_NHI => AdapterType::HostInterface,
        ADP_CS_2_TYPE_DP_IN => AdapterType::DisplayPortIn,
        ADP_CS_2_TYPE_DP_OUT => AdapterType::DisplayPortOut,
        ADP_CS_2_TYPE_PCIE_DOWN => AdapterType::PcieDown,
        ADP_CS_2_TYPE_PCIE_UP => AdapterType::PcieUp,
        ADP_CS_2_TYPE_USB3_DOWN => AdapterType::Usb3Down,
        ADP_CS_2_TYPE_USB3_UP => AdapterType::Usb3Up,
        ADP_CS_2_TYPE_USB3_GENT_DOWN => AdapterType::Usb3GenTDown,
        ADP_CS_2_TYPE_USB3_GENT_UP => AdapterType::Usb3GenTUp,
        _ => AdapterType::Unknown,
    }
}

// The state of a lane adapter by its code.
#[tactic(auto, unfolding(usb4::specs::Codes::lane_state_of))]
pub fn lane_state(code: u32) -> State
    ensures { result ≡ lane_state_of code }
{
    match code {
        LANE_ADP_CS_1_ADAPTER_STATE_DISABLED => State::Disabled,
        LANE_ADP_CS_1_ADAPTER_STATE_TRAINING => State::Training,
        LANE_ADP_CS_1_ADAPTER_STATE_CL0 => State::Cl0,
        LANE_ADP_CS_1_ADAPTER_STATE_CL0S_TX => State::Cl0sTx,
        LANE_ADP_CS_1_ADAPTER_STATE_CL0S_RX => State::Cl0sRx,
        LANE_ADP_CS_1_ADAPTER_STATE_CL1 => State::Cl1,
        LANE_ADP_CS_1_ADAPTER_STATE_CL2 => State::Cl2,
        LANE_ADP_CS_1_ADAPTER_STATE_CLD => State::Cld,
        _ => State::Unknown,
    }
}

// The link speed by its code.
#[tactic(auto, unfolding(usb4::specs::Codes::speed_of))]
pub fn speed_of(code: u32) -> Speed
    ensures { result ≡ speed_of code }
{
    match code {
        LANE_ADP_CS_1_CURRENT_SPEED_GEN2 => Speed::Gen2,
        LANE_ADP_CS_1_CURRENT_SPEED_GEN3 => Speed::Gen3,
        LANE_ADP_CS_1_CURRENT_SPEED_GEN4 => Speed::Gen4,
        _ => Speed::Unknown,
    }
}
