// The routes of one adapter of a survey. Each call loads the survey, and answers from the tables.
#![tactic(auto)]

ghost use Rattle.std.specs.Prelude.{◌≡◌};
ghost use Rattle.devices.specs.Calls.{on_adapter, upstream_route_answer, downstream_route_answer};
ghost use Rattle.routing.specs.Work.{Answers};
ghost use Rattle.refusal.specs.Refusal.{outcome};

use adapter::Facts;
use refusal::{Fault, Refusal, Site};
use tables::DeviceFacts;

// A route of the adapter of the device at a place with a number, by both: 3, 4, loading, 14, then as met.
fn ask<F: FnOnce(usize, DeviceFacts, Facts) -> Result<Option<u64>, Fault>>(
    descriptions: &[u32],
    survey: &[u32],
    site: Site,
    route: F,
) -> Result<Option<u64>, Refusal>
    requires { F.IsAlwaysCallable route }
    ensures { (f : _) → Answers site.place (F.post route site.place) f → outcome result ≡ on_adapter descriptions.now survey.now site.place site.adapter f }
{
    let loaded = load::load(descriptions, survey);
    let tables = loaded.tables()?;
    let device = routers::find_device(&tables, site.place).ok_or(Refusal::Missing)?;
    let found = search::find_adapter(tables.adapters, site.place, site.adapter);
    let adapter = found.ok_or(Refusal::Missing)?;
    Ok(route(site.place, device, adapter)?)
}

// The route before an adapter that is an upstream lane, none, or 11.
pub fn upstream_route(
    descriptions: &[u32],
    survey: &[u32],
    site: Site,
) -> Result<Option<u64>, Refusal>
    ensures { outcome result ≡ upstream_route_answer descriptions.now survey.now site.place site.adapter }
{
    ask(descriptions, survey, site, links::upstream_route_of)
}

// The route behind an adapter that is a lane, none, or 12.
pub fn downstream_route(
    descriptions: &[u32],
    survey: &[u32],
    site: Site,
) -> Result<Option<u64>, Refusal>
    ensures { outcome result ≡ downstream_route_answer descriptions.now survey.now site.place site.adapter }
{
    ask(descriptions, survey, site, links::downstream_route_of)
}
