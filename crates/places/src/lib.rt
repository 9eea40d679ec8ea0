// Where a device's group stands in survey words.
#![tactic(auto)]

ghost use Rattle.std.specs.Prelude.{◌≡◌, ◌≤◌, length};
ghost use Rattle.survey.specs.Places.{group_at};
ghost use Rattle.survey.specs.Work.{NextHead};

use survey::Bounds;

// The first device head from a group's place on, or the length.
fn next_device(survey: &[u32], from: usize) -> usize
    requires { from ≤ length survey.now }
    ensures { NextHead survey.now from result }
{
    let mut i = from;
    while i < survey.len() {
        let w = survey[i];
        let size = rules::group_size(w);
        if survey.len() < i + size {
            return survey.len();
        }
        if w / 268435456 % 16 == 3 {
            return i;
        }
        i += size;
    }
    i
}

// Where the group of the device at a place stands: its head up to the next device's head. The words need not be well formed.
pub fn device_group(survey: &[u32], place: usize) -> Option<Bounds>
    ensures { result ≡ group_at survey.now place }
{
    let mut at = next_device(survey, 0);
    for _ in 0..place {
        if survey.len() <= at {
            return None;
        }
        at = next_device(survey, at + 4);
    }
    if survey.len() <= at {
        return None;
    }
    Some(Bounds {
        start: at,
        end: next_device(survey, at + 4),
    })
}
