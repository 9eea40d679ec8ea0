// What the exported calls answer, in eight words: whether description or survey words are well formed, and our descriptions.
#![tactic(auto)]

ghost use Rattle.std.specs.Prelude.{◌≤◌, ◌≡◌, ◌++◌, length, drop};
ghost use Rattle.answers.specs.Said.{said, always, bare};
ghost use Rattle.lookups.specs.Handed.{HandedOut, OursSaid};
ghost use Rattle.refusal.specs.Refusal.{outcome};

use refusal::Refusal;

// Whether words, of descriptions or of a survey, are well formed.
#[tactic(auto, unfolding(answers::specs::Said::said, answers::specs::Said::padded, answers::specs::Said::always, refusal::specs::Outcome::bind))]
pub fn checked(answer: Result<(), Refusal>) -> [u64; 8]
    ensures { result ≡ said (always bare (outcome answer)) }
{
    match answer {
        Ok(()) => [0, 1, 0, 0, 0, 0, 0, 0],
        Err(refusal) => answers::refused(refusal),
    }
}

// Puts all words of a list at the front of another that has room for them.
fn copy(from: &[u32], to: &mut [u32])
    requires { length from.now ≤ length to.old }
    ensures { to.new ≡ from.now ++ drop (length from.now) to.old }
{
    to[..from.len()].copy_from_slice(from);
}

// Puts all words of a list at the front of another, if it has room for them, and says how many there are.
fn put(from: &[u32], to: &mut [u32]) -> [u64; 8]
    ensures { HandedOut from.now to.old to.new result }
{
    if to.len() < from.len() {
        return [2, from.len() as u64, 0, 0, 0, 0, 0, 0];
    }
    copy(from, to);
    [0, 1, from.len() as u64, 0, 0, 0, 0, 0]
}

// Our descriptions, put at the front of the output.
pub fn our_descriptions(output: &mut [u32]) -> [u64; 8]
    ensures { OursSaid output.old output.new result }
{
    let ours = metadata::ours();
    put(&ours, output)
}
