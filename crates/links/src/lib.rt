// The routes of a router's adapters, by the facts of both.
#![tactic(auto)]

ghost use Rattle.std.specs.Prelude.{◌≡◌};
ghost use Rattle.adapter.specs.Adapter.{facts_row};
ghost use Rattle.tables.specs.Packed.{device_row};
ghost use Rattle.fabric.specs.Links.{upstream_route_of, downstream_route_of};
ghost use Rattle.refusal.specs.Refusal.{fault_outcome};

use adapter::Facts;
use refusal::{Fault, FieldError, Site};
use tables::DeviceFacts;
use usb4::AdapterType;

// The route of the router before an upstream lane; 11 at depth 0.
pub fn upstream_route_of(place: usize, d: DeviceFacts, f: Facts) -> Result<Option<u64>, Fault>
    ensures { fault_outcome result ≡ upstream_route_of place (device_row place d) (facts_row place f) }
{
    let kind = f.kind;
    let AdapterType::Lane = kind else {
        return Ok(None);
    };
    let adapter = f.number;
    let upstream = d.upstream;
    let number = match upstream {
        Ok(Some(number)) => number,
        Ok(None) => return Ok(None),
        Err(FieldError::NoField) => return Ok(None),
    };
    if number != adapter {
        return Ok(None);
    }
    let site = Site { place, adapter };
    let route = route::upstream_route(d.route).ok_or(Fault::NoParentRoute(site))?;
    Ok(Some(route))
}

// The route of the router behind a lane; 12 at depth 8.
pub fn downstream_route_of(place: usize, d: DeviceFacts, f: Facts) -> Result<Option<u64>, Fault>
    ensures { fault_outcome result ≡ downstream_route_of place (device_row place d) (facts_row place f) }
{
    let kind = f.kind;
    let AdapterType::Lane = kind else {
        return Ok(None);
    };
    let adapter = f.number;
    let site = Site { place, adapter };
    let route = route::downstream_route(d.route, adapter).ok_or(Fault::NoDownstreamRoute(site))?;
    Ok(Some(route))
}
