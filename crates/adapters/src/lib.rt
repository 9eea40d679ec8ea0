// The calls on one adapter of a survey. Each loads the survey, and answers from the tables.
#![tactic(auto)]

ghost use Rattle.std.specs.Prelude.{◌≡◌};
ghost use Rattle.state.specs.State.{is_enabled};
ghost use Rattle.adapters.specs.Calls.{row_answer, adapter_answer, speed_answer, max_hop_answer};
ghost use Rattle.adapters.specs.Work.{row_outcome};
ghost use Rattle.refusal.specs.Refusal.{outcome};

use adapter::Facts;
use refusal::{Fault, Refusal, Site};
use usb4::{AdapterType, Speed, State};

// What is said of an adapter: its kind, state, whether it is lane 0 or lane 1, its least HopID, whether it is enabled.
#[derive(Clone, Copy)]
pub struct AdapterInfo {
    pub kind: AdapterType,
    pub state: State,
    pub lane0: bool,
    pub lane1: bool,
    pub min_hop: Option<u32>,
    pub enabled: bool,
}

// The adapter of the device at a place with a number: 3, 4, loading, 14.
fn find_row(descriptions: &[u32], survey: &[u32], site: Site) -> Result<Facts, Refusal>
    ensures { row_outcome site.place result ≡ row_answer descriptions.now survey.now site.place site.adapter }
{
    let loaded = load::load(descriptions, survey);
    let tables = loaded.tables()?;
    if tables.devices.len() <= site.place {
        return Err(Refusal::Missing);
    }
    search::find_adapter(tables.adapters, site.place, site.adapter).ok_or(Refusal::Missing)
}

// Whether an adapter of a kind in a state is enabled: a host interface always, another protocol adapter by its state.
fn is_enabled(kind: AdapterType, state: State) -> bool
    ensures { result ≡ is_enabled kind state }
{
    match kind {
        AdapterType::HostInterface => true,
        AdapterType::Unknown | AdapterType::Inactive | AdapterType::Lane => false,
        _ => state == State::Enabled,
    }
}

// Kind, state, lanes, least HopID, whether it is enabled.
pub fn adapter(descriptions: &[u32], survey: &[u32], site: Site) -> Result<AdapterInfo, Refusal>
    ensures { outcome result ≡ adapter_answer descriptions.now survey.now site.place site.adapter }
{
    let facts = find_row(descriptions, survey, site)?;
    let kind = facts.kind;
    let state = facts.state;
    Ok(AdapterInfo {
        kind,
        state,
        lane0: facts.lane0,
        lane1: facts.lane1,
        min_hop: hopids::min_hop(kind),
        enabled: is_enabled(kind, state),
    })
}

// The link speed, or 6.
pub fn link_speed(descriptions: &[u32], survey: &[u32], site: Site) -> Result<Speed, Refusal>
    ensures { outcome result ≡ speed_answer descriptions.now survey.now site.place site.adapter }
{
    let facts = find_row(descriptions, survey, site)?;
    facts.speed.ok().ok_or(Refusal::Fault(Fault::NoField(site)))
}

// The largest HopID, or 6.
#[tactic(auto, unfolding(crate::specs::Calls::max_hop_answer, crate::specs::Work::row_outcome, adapter::specs::Adapter::facts_row, refusal::specs::Outcome::bind))]
pub fn max_hop(descriptions: &[u32], survey: &[u32], site: Site) -> Result<Option<u32>, Refusal>
    ensures { outcome result ≡ max_hop_answer descriptions.now survey.now site.place site.adapter }
{
    let facts = find_row(descriptions, survey, site)?;
    let hop = facts.max_hop.ok();
    hop.ok_or(Refusal::Fault(Fault::NoField(site)))
}
