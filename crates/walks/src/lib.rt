// The call for a single walk on a survey.
#![tactic(auto)]

ghost use Rattle.walks.specs.Calls.{WalkDone};

use load::Loaded;
use path::PathName;
use refusal::Refusal;
use tables::Stand;

// The walk from where it stands: a path word with name 9 and its hops, and how many hops; or nothing. 2 comes with the words needed.
pub fn discover_path(
    descriptions: &[u32],
    survey: &[u32],
    stand: Stand,
    output: &mut [u32],
) -> Result<Option<usize>, Refusal>
    ensures { WalkDone descriptions.now survey.now stand output.old result output.new }
{
    let mut loaded = Loaded::none();
    loaded.load(descriptions, survey);
    let tables = loaded.tables()?;
    let Some(_) = routers::find_device(&tables, stand.place) else {
        return Err(Refusal::Missing);
    };
    let Some(_) = search::find_adapter(tables.adapters, stand.place, stand.adapter) else {
        return Err(Refusal::Missing);
    };
    path::put_path(&tables, stand, PathName::WALK, output)
}
