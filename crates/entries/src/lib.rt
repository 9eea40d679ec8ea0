// The call for the entry of an adapter for a HopID. It loads the survey, and answers from the tables.
#![tactic(auto)]

ghost use Rattle.std.specs.Prelude.{◌≡◌};
ghost use Rattle.adapters.specs.Calls.{path_answer, path_outcome};

use adapter::EntryOut;
use refusal::Refusal;
use tables::Stand;

// The first valid entry for a HopID at an adapter of the device at a place.
pub fn path(descriptions: &[u32], survey: &[u32], stand: Stand) -> Result<Option<EntryOut>, Refusal>
    ensures { path_outcome stand.place stand.adapter stand.hop_id result ≡ path_answer descriptions.now survey.now stand.place stand.adapter stand.hop_id }
{
    let loaded = load::load(descriptions, survey);
    let tables = loaded.tables()?;
    if tables.devices.len() <= stand.place {
        return Err(Refusal::Missing);
    }
    let Some(_) = search::find_adapter(tables.adapters, stand.place, stand.adapter) else {
        return Err(Refusal::Missing);
    };
    let found = search::find_entry(tables.entries, stand);
    Ok(found)
}
