// Whether a survey is accepted: loading alone, counted.
#![tactic(auto)]

ghost use Rattle.std.specs.Prelude.{◌≡◌};
ghost use Rattle.refusal.specs.Refusal.{outcome};
ghost use Rattle.acceptance.specs.Accepted.{accepted_answer};

use refusal::Refusal;

// What a survey that is accepted has: its devices and valid path entries.
#[derive(Clone, Copy)]
pub struct Acceptance {
    pub devices: usize,
    pub entries: usize,
}

// Whether a survey is accepted, and how many devices and valid path entries it has.
#[tactic(auto, using(crate::proofs::Laws::by_counts, refusal::proofs::Laws::refused_bind))]
pub fn accepted(descriptions: &[u32], survey: &[u32]) -> Result<Acceptance, Refusal>
    ensures { outcome result ≡ accepted_answer descriptions.now survey.now }
{
    let counts = load::accept(descriptions, survey)?;
    Ok(Acceptance {
        devices: counts.devices,
        entries: counts.entries,
    })
}
