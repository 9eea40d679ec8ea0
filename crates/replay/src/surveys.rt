// Whether the survey calls answer what the words of a case say. The list stands last: its length, and its words.
use crate::answer::Rest;
use refusal::Refusal;

// Whether this word is that place.
fn is_place(word: Option<u32>, place: usize) -> bool {
    match word {
        Some(w) => w as usize == place,
        None => false,
    }
}

fn check_agrees(survey: &[u32], status: u32, place: Option<u32>) -> bool {
    match wellformed::check(survey) {
        Ok(()) => status == 0,
        Err(Refusal::Survey(p)) => status == 4 && is_place(place, p),
        Err(_) => false,
    }
}

// The words say 0 or 4 and the place.
pub fn survey_agrees(rest: Rest<'_>, list: &mut [u32]) -> Option<bool> {
    let (status, rest) = rest.number()?;
    let (place, rest) = rest.next()?;
    let n = cases::listed(rest.bytes, list)?;
    Some(check_agrees(list.get(..n)?, status, place))
}

// The words say a device's place; then 1 and where its group starts and ends, or 0 and 0 and 0.
pub fn group_agrees(rest: Rest<'_>, list: &mut [u32]) -> Option<bool> {
    let (place, rest) = rest.next()?;
    let (found, rest) = rest.number()?;
    let (start, rest) = rest.next()?;
    let (end, rest) = rest.next()?;
    let n = cases::listed(rest.bytes, list)?;
    // Where no word stands, a place that no device has.
    let place = match place {
        Some(p) => p as usize,
        None => usize::MAX,
    };
    match places::device_group(list.get(..n)?, place) {
        Some(group) => Some(found == 1 && is_place(start, group.start) && is_place(end, group.end)),
        None => Some(found == 0),
    }
}
