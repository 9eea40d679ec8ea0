// A view of one device's group in survey words.
#![tactic(auto)]

ghost use Rattle.std.specs.Prelude.{◌≡◌};
ghost use Rattle.view.specs.View.{group_place, group_words};
ghost use Rattle.refusal.specs.Refusal.{outcome};

use refusal::Refusal;
use survey::Bounds;

// The survey's words, and one device's place.
#[derive(Clone, Copy)]
pub struct View<'a> {
    pub words: &'a [u32],
    pub place: usize,
}

// Where the group of the device at a place stands; refused where the words are (4), then where there is no such device (14).
#[tactic(auto, unfolding(crate::specs::View::group_place), using(refusal::proofs::Laws::refused_bind))]
pub fn stand_of(survey: &[u32], place: usize) -> Result<Bounds, Refusal>
    ensures { outcome result ≡ group_place survey.now place }
{
    wellformed::check(survey)?;
    let Some(bounds) = places::device_group(survey, place) else {
        return Err(Refusal::Missing);
    };
    Ok(bounds)
}

// The words of the group of the device at a place; none where its place is refused.
#[tactic(auto, unfolding(crate::specs::View::group_words, crate::specs::View::words_by))]
pub fn words_of<'a>(survey: &'a [u32], place: usize) -> &'a [u32]
    ensures { result.now ≡ group_words survey.now place }
{
    match stand_of(survey, place) {
        Ok(group) => &survey[group.start..group.end],
        Err(_) => &survey[0..0],
    }
}

// Where the view's group stands.
pub fn stands<'a>(v: View<'a>) -> Result<Bounds, Refusal>
    ensures { outcome result ≡ group_place v.entry.words.now v.entry.place }
{
    stand_of(v.words, v.place)
}

// The view's group beside the answer to where it stands. No Result of the one, since document 01's second thin call gives both, the part whether or not its place is refused (docs/DECISIONS.md, 60).
#[derive(Clone, Copy)]
pub struct Shown<'a> {
    pub part: &'a [u32],
    pub stand: Result<Bounds, Refusal>,
}

// The view's group, a part of the words lent, empty exactly where its place is refused, beside where it stands.
pub fn group<'a>(v: View<'a>) -> Shown<'a>
    ensures { (result.part.now ≡ group_words v.entry.words.now v.entry.place) × (outcome result.stand ≡ group_place v.entry.words.now v.entry.place) }
{
    let part = words_of(v.words, v.place);
    let stand = stand_of(v.words, v.place);
    Shown { part, stand }
}
