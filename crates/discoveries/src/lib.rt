// The call for the tunnels of an adapter of a survey.
#![tactic(auto)]

ghost use Rattle.discoveries.specs.Calls.{DiscoverDone};

use load::Loaded;
use refusal::{Refusal, Site};

// The tunnels from an adapter of the device at a place, as result words: how many, or the words needed (2); or no list.
pub fn discover(
    descriptions: &[u32],
    survey: &[u32],
    site: Site,
    output: &mut [u32],
) -> Result<Option<usize>, Refusal>
    ensures { DiscoverDone descriptions.now survey.now site.place site.adapter output.old result output.new }
{
    let mut loaded = Loaded::none();
    loaded.load(descriptions, survey);
    let tables = loaded.tables()?;
    discovery::discover_in(&tables, site, output)
}
