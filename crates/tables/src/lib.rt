// The tables that a survey is loaded to, and what is found in them; `search` and `routers` find it.
#![tactic(auto)]

use adapter::Facts;
use refusal::FieldError;
use usb4::Kind;

// Entries and adapters, a word each, and devices. specs/Packed.antt says what a word holds.
#[derive(Clone, Copy)]
pub struct Tables<'a> {
    pub entries: &'a [u64],
    pub adapters: &'a [u64],
    pub devices: &'a [DeviceFacts],
}

// Where a walk stands: at an adapter of the device at a place, with a HopID.
#[derive(Clone, Copy)]
pub struct Stand {
    pub place: usize,
    pub adapter: u8,
    pub hop_id: u16,
}

// What is known of a device.
#[derive(Clone, Copy)]
pub struct DeviceFacts {
    pub kind: Kind,
    pub usb4: bool,
    pub domain: u32,
    pub route: u64,
    pub upstream: Result<Option<u8>, FieldError>,
}
