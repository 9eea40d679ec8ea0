// Searches in the table of devices, by place or by domain and route. Any devices will do.
#![tactic(auto)]

ghost use Rattle.std.specs.Prelude.{◌≡◌, position};
ghost use Rattle.tables.specs.Rows.{device_in, router_from};
ghost use Rattle.tables.specs.Packed.{devices_in};
ghost use Rattle.tables.specs.Found.{device_found};
ghost use Rattle.routers.specs.Work.{stands_at};

use tables::{DeviceFacts, Tables};
use usb4::Kind;

// The device at a place.
pub fn find_device(tables: &Tables, place: usize) -> Option<DeviceFacts>
    ensures { device_found place result ≡ device_in (devices_in tables.now.devices.now) place }
{
    tables.devices.get(place).copied()
}

// Whether a device is a router of a domain at a route: the route first, which tells most of them apart.
fn stands_at(device: &DeviceFacts, domain: u32, route: u64) -> bool
    ensures { result ≡ stands_at domain route device.now }
{
    device.route == route && device.domain == domain && device.kind == Kind::Router
}

// The place of the first device that is a router of a domain at a route. A call of its own, so that the loop carries nothing of what a caller makes of the place.
#[inline(never)]
fn first_router(devices: &[DeviceFacts], domain: u32, route: u64) -> Option<usize>
    ensures { result ≡ position (λ d. stands_at domain route d) devices.now }
{
    devices
        .iter()
        .position(|device| stands_at(device, domain, route))
}

// The first router of a domain at a route.
pub fn find_router(tables: &Tables, domain: u32, route: u64) -> Option<usize>
    ensures { result ≡ router_from 0 (devices_in tables.now.devices.now) domain route }
{
    first_router(tables.devices, domain, route)
}
