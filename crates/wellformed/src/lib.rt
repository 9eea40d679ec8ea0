// Whether survey words are well formed (4).
#![tactic(auto)]

ghost use Rattle.std.specs.Prelude.{◌≡◌};
ghost use Rattle.survey.specs.Rules.{check_of};
ghost use Rattle.refusal.specs.Refusal.{outcome};

use refusal::Refusal;
use survey::Under;

// A survey holds at most so many words.
pub const MAX_WORDS: usize = 16384;

// Whether the words are well formed; refused (4) with 16,384 if they are too many, else with the head place of the first group that breaks the rules.
pub fn check(survey: &[u32]) -> Result<(), Refusal>
    ensures { outcome result ≡ check_of survey.now }
{
    if MAX_WORDS < survey.len() {
        return Err(Refusal::Survey(MAX_WORDS));
    }
    let mut u = Under {
        begun: false,
        registers: false,
        paths: false,
        listing: false,
        least: 0,
    };
    let mut i: usize = 0;
    while i < survey.len() {
        let w = survey[i];
        let size = rules::group_size(w);
        if survey.len() - i < size {
            return Err(Refusal::Survey(i));
        }
        let Some(next) = rules::advance(u, w, layout::word_at(survey, i + 2)) else {
            return Err(Refusal::Survey(i));
        };
        u = next;
        i += size;
    }
    Ok(())
}
