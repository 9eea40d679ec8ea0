#![tactic(auto)]

ghost use Rattle.std.specs.Prelude.{◌≡◌};
ghost use Rattle.usb4.specs.Codes.{device_kind_of};
ghost use Rattle.usb4.specs.Numbers.{type_number, state_number, speed_number, device_kind_number, tunnel_number};

// A route has eight bits for each router on the way.
pub const ROUTE_SHIFT: u32 = 8;

// Adapter types, in the order of the Rust's `Type` (debugfs.rs).
#[derive(Clone, Copy, PartialEq, Eq)]
pub enum AdapterType {
    Unknown = 0,
    Inactive = 1,
    Lane = 2,
    HostInterface = 3,
    DisplayPortIn = 4,
    DisplayPortOut = 5,
    PcieDown = 6,
    PcieUp = 7,
    Usb3Down = 8,
    Usb3Up = 9,
    Usb3GenTDown = 10,
    Usb3GenTUp = 11,
}

// Adapter states, in the order of the Rust's `State`.
#[derive(Clone, Copy, PartialEq, Eq)]
pub enum State {
    Unknown = 0,
    Disabled = 1,
    Enabled = 2,
    Training = 3,
    Cl0 = 4,
    Cl0sTx = 5,
    Cl0sRx = 6,
    Cl1 = 7,
    Cl2 = 8,
    Cld = 9,
}

// Link speeds, in the order of the Rust's `Speed`.
#[derive(Clone, Copy, PartialEq, Eq)]
pub enum Speed {
    Unknown = 0,
    Gen2 = 1,
    Gen3 = 2,
    Gen4 = 3,
}

// Device kinds, in the order of the Rust's `Kind` (device.rs).
#[derive(Clone, Copy, PartialEq, Eq)]
pub enum Kind {
    Domain = 0,
    Router = 1,
    Xdomain = 2,
    Retimer = 3,
    Service = 4,
    Unknown = 5,
}

// Tunnel types, in the order of the Rust's `Type` (tunnel.rs).
#[derive(Clone, Copy, PartialEq, Eq)]
pub enum TunnelType {
    Usb3 = 0,
    DisplayPort = 1,
    Pcie = 2,
    Dma = 3,
}

impl From<AdapterType> for u32 {
    ghost from_gives = { λ a n. n ≡ type_number a };

    fn from(kind: AdapterType) -> u32 {
        kind as u32
    }
}

impl From<State> for u32 {
    ghost from_gives = { λ s n. n ≡ state_number s };

    fn from(state: State) -> u32 {
        state as u32
    }
}

impl From<Speed> for u32 {
    ghost from_gives = { λ s n. n ≡ speed_number s };

    fn from(speed: Speed) -> u32 {
        speed as u32
    }
}

impl From<Kind> for u32 {
    ghost from_gives = { λ k n. n ≡ device_kind_number k };

    fn from(device: Kind) -> u32 {
        device as u32
    }
}

// Any number from 5 on is that of no kind that is known.
impl From<u32> for Kind {
    ghost from_gives = { λ number k. k ≡ device_kind_of number };

    #[tactic(auto, unfolding(crate::specs::Codes::device_kind_of))]
    fn from(number: u32) -> Kind {
        match number {
            0 => Kind::Domain,
            1 => Kind::Router,
            2 => Kind::Xdomain,
            3 => Kind::Retimer,
            4 => Kind::Service,
            _ => Kind::Unknown,
        }
    }
}

impl From<TunnelType> for u32 {
    ghost from_gives = { λ t n. n ≡ tunnel_number t };

    fn from(tunnel: TunnelType) -> u32 {
        tunnel as u32
    }
}
