#![tactic(auto)]

ghost use Rattle.std.specs.Prelude.{◌≡◌, ◌*◌, ◌<◌, ◌^◌};
ghost use Rattle.route.specs.Route.{depth_of, upstream_route, downstream_route, adapter_beneath, downstream_adapter};

use usb4::ROUTE_SHIFT;

// How many routers a route passes: the bytes up to the last that is not 0.
#[tactic(auto, using(crate::proofs::Laws::depth_by_bits))]
pub fn depth(route: u64) -> u32
    ensures { result ≡ depth_of route }
{
    (64 - route.leading_zeros()).div_ceil(8)
}

// What 1 in the byte of a depth counts.
fn unit(depth: u32) -> u64
    requires { depth < 8 }
    ensures { result ≡ 2 ^ (8 * depth) }
{
    1u64 << (ROUTE_SHIFT * depth)
}

// The route of the router before the last; none at depth 0, where the Rust's subtraction overflows. That the adapter is an upstream lane is the caller's to see.
pub fn upstream_route(route: u64) -> Option<u64>
    ensures { result ≡ upstream_route route }
{
    let d = depth(route);
    if d < 1 {
        return None;
    }
    Some(route % unit(d - 1))
}

// The route of the router behind an adapter; none at depth 8, where the Rust's shift overflows. That the adapter is a lane is the caller's to see.
pub fn downstream_route(route: u64, adapter: u8) -> Option<u64>
    ensures { result ≡ downstream_route route adapter }
{
    let d = depth(route);
    if 8 <= d {
        return None;
    }
    Some(route + (adapter as u64) * unit(d))
}

// The adapter of the router at a route behind which a device hangs, by their routes alone.
fn adapter_beneath(route: u64, device: u64) -> Option<u8>
    ensures { result ≡ adapter_beneath route device }
{
    let d = depth(route);
    if 7 < d {
        return None;
    }
    if depth(device) != d + 1 {
        return None;
    }
    let size = unit(d);
    if route != device % size {
        return None;
    }
    Some((device / size % 256) as u8)
}

// The adapter of a router behind which a device hangs, each given by domain and route; none where it doesn't hang right below, or is of another domain.
pub fn downstream_adapter(domain: u32, route: u64, device_domain: u32, device: u64) -> Option<u8>
    ensures { result ≡ downstream_adapter domain route device_domain device }
{
    if domain != device_domain {
        return None;
    }
    adapter_beneath(route, device)
}
