// The parent of a device of a survey.
#![tactic(auto)]

ghost use Rattle.std.specs.Prelude.{◌≡◌, List};
ghost use Rattle.tables.specs.Packed.{device_row};
ghost use Rattle.tables.specs.Rows.{EntryRow};
ghost use Rattle.fabric.specs.Tables.{rows_with};
ghost use Rattle.parents.specs.Parents.{router_parent, xdomain_parent, parent_of, parent_answer};
ghost use Rattle.parents.specs.Tables.{ParentIs};
ghost use Rattle.refusal.specs.Refusal.{fault_outcome, outcome};

use load::Loaded;
use refusal::{Fault, FieldError, Refusal, Site};
use tables::{DeviceFacts, Tables};
use usb4::Kind;

// A router's parent by its upstream adapter.
fn router_parent(tables: &Tables, place: usize, d: DeviceFacts) -> Result<Option<usize>, Fault>
    ensures { ParentIs tables.now place (λ x. router_parent x place (device_row place d)) result }
{
    let upstream = d.upstream;
    let a = match upstream {
        Ok(Some(a)) => a,
        Ok(None) => return Ok(None),
        Err(FieldError::NoField) => return Err(Fault::NoField(Site { place, adapter: 0 })),
    };
    let Some(f) = search::find_adapter(tables.adapters, place, a) else {
        return Ok(None);
    };
    match links::upstream_route_of(place, d, f)? {
        Some(r) => Ok(routers::find_router(tables, d.domain, r)),
        None => Ok(None),
    }
}

// An xdomain's parent by its route.
fn xdomain_parent(tables: &Tables, place: usize, d: DeviceFacts) -> Result<Option<usize>, Fault>
    ensures { (es : List EntryRow) → fault_outcome result ≡ xdomain_parent (rows_with es tables.now) place (device_row place d) }
{
    let site = Site { place, adapter: 0 };
    let route = route::upstream_route(d.route).ok_or(Fault::NoParentRoute(site))?;
    Ok(routers::find_router(tables, d.domain, route))
}

// A device's parent, in the tables.
pub fn parent_of(tables: &Tables, place: usize, d: DeviceFacts) -> Result<Option<usize>, Fault>
    ensures { ParentIs tables.now place (λ x. parent_of x place (device_row place d)) result }
{
    let kind = d.kind;
    match kind {
        Kind::Router => router_parent(tables, place, d),
        Kind::Xdomain => xdomain_parent(tables, place, d),
        _ => Ok(None),
    }
}

// The place of a device's parent: of a router by its upstream adapter, of an xdomain by its route.
pub fn parent_from(
    descriptions: &[u32],
    survey: &[u32],
    place: usize,
) -> Result<Option<usize>, Refusal>
    ensures { outcome result ≡ parent_answer descriptions.now survey.now place }
{
    let mut loaded = Loaded::none();
    loaded.load(descriptions, survey);
    let tables = loaded.tables()?;
    let d = routers::find_device(&tables, place).ok_or(Refusal::Missing)?;
    Ok(parent_of(&tables, place, d)?)
}
