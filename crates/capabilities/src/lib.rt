// The call for the capability part of an adapter: the adapter's head is found in the survey, once the survey is loaded.
#![tactic(auto)]

ghost use Rattle.std.specs.Prelude.{◌≡◌};
ghost use Rattle.refusal.specs.Refusal.{outcome};
ghost use Rattle.survey.specs.Devices.{devices_of};
ghost use Rattle.listing.specs.After.{after};
ghost use Rattle.capabilities.specs.Capability.{numbered_in, said_adapter, capability_answer};
ghost use Rattle.capabilities.specs.Work.{head_outcome};

use adapter::Part;
use refusal::{Refusal, Site};

// Where the adapter with a number has its head, of those from a place on up to the next device.
fn head_from(survey: &[u32], from: usize, number: u8) -> Option<usize>
    ensures { head_outcome survey.now result ≡ numbered_in number (after survey.now from).adapters }
{
    let mut i = listing::next_head(survey, from);
    while i < survey.len() {
        let w = survey[i];
        if w / 268435456 % 16 != 4 {
            return None;
        }
        if w % 256 == number as u32 {
            return Some(i);
        }
        i = listing::next_head(survey, i + 1);
    }
    None
}

// Where an adapter of the device at a place has its head.
fn find_head(survey: &[u32], site: Site) -> Option<usize>
    ensures { head_outcome survey.now result ≡ said_adapter (devices_of survey.now) site.place site.adapter }
{
    let mut left = site.place;
    let mut i = listing::next_head(survey, 0);
    while i < survey.len() {
        if survey[i] / 268435456 % 16 == 4 {
            i = listing::next_head(survey, i + 1);
        } else {
            if left < 1 {
                return head_from(survey, i + 4, site.adapter);
            }
            left -= 1;
            i = listing::next_head(survey, i + 4);
        }
    }
    None
}

// The capability part: the registers from the first with the cap id after index 0 up to the last.
pub fn capability(
    descriptions: &[u32],
    survey: &[u32],
    site: Site,
    cap: u32,
) -> Result<Option<Part>, Refusal>
    ensures { outcome result ≡ capability_answer descriptions.now survey.now site.place site.adapter cap }
{
    load::accept(descriptions, survey)?;
    let Some(at) = find_head(survey, site) else {
        return Err(Refusal::Missing);
    };
    Ok(adapter::capability(survey, at, cap))
}
