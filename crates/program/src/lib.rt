// What the program does between reading a text and writing lines.
#![tactic(auto)]

ghost use Rattle.program.specs.Opened.{Opens};
ghost use Rattle.program.specs.Work.{Answered, Answers};

use load::Loaded;
use refusal::Refusal;

// A text's survey, loaded, and how many tunnels all adapters have: each was tried.
#[derive(Drop)]
pub struct Opened {
    pub answer: Result<usize, Refusal>,
    pub loaded: Loaded,
}

// Tries each adapter of a survey that was loaded.
fn try_loaded(loaded: &Loaded) -> Result<usize, Refusal>
    ensures { Answered loaded.now result }
{
    let tables = loaded.tables()?;
    report::try_all(&tables)
}

// What reading a text refuses, or what loading and trying answer.
#[tactic(auto, using(crate::proofs::Opening::read_refused))]
fn answer_of(read: Result<usize, Refusal>, loaded: &Loaded) -> Result<usize, Refusal>
    ensures { Answers read loaded.now result }
{
    read?;
    try_loaded(loaded)
}

// A text's survey, loaded into the caller's room, with every adapter tried, or the first refusal: 2 for its length, 1, 4, then loading, then an adapter's own. Where the text is refused no words are loaded, so that what is tried is always what was loaded from the text.
pub fn open_into(text: &[u8], loaded: &mut Loaded) -> Result<usize, Refusal>
    ensures { Opens text.now (record { answer = result; loaded = loaded.new }) }
{
    let mut survey = [0u32; 16384];
    let read = text::read(text, &mut survey);
    let n = read.unwrap_or(0);
    let ours = metadata::ours();
    loaded.load(&ours, &survey[..n]);
    answer_of(read, loaded)
}

// The same, with the tables handed out; they are copied then.
pub fn open(text: &[u8]) -> Opened
    ensures { Opens text.now result }
{
    let mut loaded = Loaded::none();
    let answer = open_into(text, &mut loaded);
    Opened { answer, loaded }
}
