// Where a hop leads, on the tables that a survey is loaded to.
#![tactic(auto)]

ghost use Rattle.std.specs.Prelude.{ℕ, ◌<◌, ◌≡◌, Some, Ok};
ghost use Rattle.refusal.specs.Refusal.{field_at};
ghost use Rattle.refusal.specs.declared.Site.{Site};
ghost use Rattle.tables.specs.Rows.{adapter_in};
ghost use Rattle.tables.specs.Packed.{device_row, adapters_in};
ghost use Rattle.tables.specs.Tables.{InOrder};
ghost use Rattle.fabric.specs.Links.{is_upstream};
ghost use Rattle.fabric.specs.Fabric.{stand_by, arrive_up, arrive_down, to_route, leads};
ghost use Rattle.fabric.specs.Tables.{way_of, LeadsTo, lane_leads};

use refusal::{Fault, FieldError, Site, WalkError};
use tables::{DeviceFacts, Tables};

// Where a walk goes after a hop: on to an adapter of the device at a place; no further, this hop last; no path at all.
#[derive(Clone, Copy)]
pub enum Next {
    On { place: usize, adapter: u8 },
    Last,
    Dropped,
}

// Whether an adapter is its router's upstream adapter.
fn is_upstream(upstream: Result<Option<u8>, FieldError>, number: u8) -> bool
    ensures { (s : Site) → result ≡ is_upstream (field_at s upstream) number }
{
    match upstream {
        Ok(Some(a)) => a == number,
        Ok(None) => false,
        Err(FieldError::NoField) => false,
    }
}

// At an adapter of the device at a place; a missing one gives no path at all.
fn stand_at(tables: &Tables, place: usize, number: u8) -> Next
    ensures { InOrder tables.now → place < 65536 → way_of result ≡ stand_by place number (adapter_in (adapters_in tables.now.adapters.now) place number) }
{
    if let None = search::find_lane(tables.adapters, place, number) {
        return Next::Dropped;
    }
    Next::On {
        place,
        adapter: number,
    }
}

// Up to the first router at a route, at the adapter behind which the device hangs; none there, and this hop is the last.
fn go_up(tables: &Tables, d: DeviceFacts, route: u64) -> Next
    ensures { (p : ℕ) → LeadsTo tables.now (λ x. to_route x (device_row p d) (Some route) (arrive_up x (device_row p d))) (Ok result) }
{
    let Some(q) = routers::find_router(tables, d.domain, route) else {
        return Next::Last;
    };
    let Some(e) = routers::find_device(tables, q) else {
        return Next::Dropped;
    };
    let Some(n) = route::downstream_adapter(e.domain, e.route, d.domain, d.route) else {
        return Next::Dropped;
    };
    stand_at(tables, q, n)
}

// Down to the first router at a route, at its upstream adapter, or 6; none there, and this hop is the last.
fn go_down(tables: &Tables, d: DeviceFacts, route: u64) -> Result<Next, WalkError>
    ensures { (p : ℕ) → LeadsTo tables.now (λ x. to_route x (device_row p d) (Some route) (arrive_down x)) result }
{
    let Some(q) = routers::find_router(tables, d.domain, route) else {
        return Ok(Next::Last);
    };
    let Some(e) = routers::find_device(tables, q) else {
        return Ok(Next::Dropped);
    };
    let upstream = e.upstream;
    match upstream {
        Ok(None) => Ok(Next::Dropped),
        Err(FieldError::NoField) => Err(WalkError::Fault(Fault::NoField(Site {
            place: q,
            adapter: 0,
        }))),
        Ok(Some(n)) => Ok(stand_at(tables, q, n)),
    }
}

// From a lane of a router: up if it is the upstream adapter, or 11 at depth 0; else down, or 12 at depth 8.
fn lane_leads(tables: &Tables, place: usize, d: DeviceFacts, adapter: u8) -> Result<Next, WalkError>
    ensures { LeadsTo tables.now (λ x. lane_leads x place (device_row place d) adapter) result }
{
    let site = Site { place, adapter };
    let upstream = d.upstream;
    if is_upstream(upstream, adapter) {
        let route = route::upstream_route(d.route).ok_or(Fault::NoParentRoute(site))?;
        return Ok(go_up(tables, d, route));
    }
    let route = route::downstream_route(d.route, adapter).ok_or(Fault::NoDownstreamRoute(site))?;
    go_down(tables, d, route)
}

// Where a hop from the device at a place leads by an out adapter; 10 where that isn't on the router. By one that is no lane it is the last.
pub fn leads(tables: &Tables, place: usize, out_adapter: u8) -> Result<Next, WalkError>
    ensures { LeadsTo tables.now (λ x. leads x place out_adapter) result }
{
    let Some(d) = routers::find_device(tables, place) else {
        return Err(WalkError::Missing);
    };
    match search::find_lane(tables.adapters, place, out_adapter) {
        None => Err(WalkError::Fault(Fault::NoOutAdapter(Site {
            place,
            adapter: out_adapter,
        }))),
        Some(false) => Ok(Next::Last),
        Some(true) => lane_leads(tables, place, d, out_adapter),
    }
}
