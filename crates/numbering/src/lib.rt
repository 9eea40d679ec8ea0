// Whether the adapters of a device are numbered in order. Any words will do.
#![tactic(auto)]

ghost use Rattle.std.specs.Prelude.{◌%◌, ◌≡◌};
ghost use Rattle.listing.specs.After.{after};
ghost use Rattle.numbering.specs.Numbered.{numbered};

// Whether the adapters from a place on, up to the next device, are numbered 1 to a most modulo 256, in order.
pub fn numbered_to(survey: &[u32], from: usize, most: u32) -> bool
    ensures { result ≡ numbered 1 (most % 256) (after survey.now from).adapters }
{
    let last = most % 256;
    let mut number: u32 = 1;
    let mut i = listing::next_head(survey, from);
    while i < survey.len() {
        let w = survey[i];
        if w / 268435456 % 16 != 4 {
            return number == last + 1;
        }
        if w % 256 != number {
            return false;
        }
        if last < number {
            return false;
        }
        number += 1;
        i = listing::next_head(survey, i + 1);
    }
    number == last + 1
}
