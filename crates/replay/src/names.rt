// Whether a call on descriptions answers what the words of a case say.
use crate::answer::{Rest, low};
use naming::Sought;
use refusal::Refusal;

// The case's kind stands first: 0 a set, 1 a question about the set in hand, 2 a list with the place of refusal 3. Any other lets go of the set.
pub fn name_agrees(input: &[u8], rest: Rest<'_>, set: &mut [u32], held: &mut usize) -> bool {
    match rest.next() {
        Some((Some(0), descriptions)) => {
            *held = load(descriptions, set);
            match set.get(..*held) {
                Some(words) => description::check(words).is_ok(),
                None => false,
            }
        }
        Some((Some(1), question)) => match set.get(..*held) {
            Some(descriptions) => question_agrees(input, question, descriptions),
            None => false,
        },
        Some((Some(2), answer)) => {
            *held = 0;
            place_agrees(answer, set).unwrap_or(false)
        }
        _ => {
            *held = 0;
            false
        }
    }
}

// Puts the words up to the first that is none into the set, as far as there is room; how many.
fn load(descriptions: Rest<'_>, set: &mut [u32]) -> usize {
    let mut rest = descriptions;
    for (i, slot) in set.iter_mut().enumerate() {
        match rest.next() {
            Some((Some(word), next)) => {
                *slot = word;
                rest = next;
            }
            _ => return i,
        }
    }
    set.len()
}

// The words say 0 or 3 and the place; then comes the list.
fn place_agrees(rest: Rest<'_>, words: &mut [u32]) -> Option<bool> {
    let (status, rest) = rest.number()?;
    let (place, rest) = rest.next()?;
    let n = cases::listed(rest.bytes, words)?;
    match description::check(words.get(..n)?) {
        Ok(()) => Some(status == 0),
        Err(Refusal::Descriptions(p)) => Some(status == 3 && p == place? as usize),
        Err(_) => None,
    }
}

// The input is the wanted name.
fn question_agrees(input: &[u8], question: Rest<'_>, descriptions: &[u32]) -> bool {
    let mut wanted = [0u8; 256];
    match cases::input(input, &mut wanted) {
        Some(n) => answered(question, descriptions, &wanted[..n]).unwrap_or(false),
        None => false,
    }
}

// Six numbers are the question, and the answer follows.
fn answered(rest: Rest<'_>, descriptions: &[u32], wanted: &[u8]) -> Option<bool> {
    let (space, rest) = rest.number()?;
    let (kind, rest) = rest.number()?;
    let (offset, rest) = rest.number()?;
    let (cap, rest) = rest.number()?;
    let (vs, rest) = rest.number()?;
    let (value, rest) = rest.number()?;
    let q = Sought {
        space,
        kind,
        offset,
        cap,
        vs,
    };
    if !routers_alike(descriptions, q) {
        return None;
    }
    match metadata::describe(descriptions, q) {
        Err(_) => None,
        Ok(None) => Some(rest.is(&[0, 0, 6, 0, 6, 0])),
        Ok(Some(place)) => group_agrees(rest, descriptions, place, value, wanted),
    }
}

// The group of a register of a router is the same by either call.
fn routers_alike(descriptions: &[u32], q: Sought) -> bool {
    0 < q.space
        || naming::find_group(descriptions, q)
            == naming::find_router_group(descriptions, q.offset, q.cap, q.vs)
}

// The words of the name, whether it is the wanted name, the field, the flag, and the name itself.
fn group_agrees(
    rest: Rest<'_>,
    descriptions: &[u32],
    place: usize,
    value: u32,
    wanted: &[u8],
) -> Option<bool> {
    let name = metadata::name(descriptions, place);
    let is = fields::name_is(descriptions, place, wanted) as u32;
    let field = metadata::field(descriptions, place, value, wanted);
    let flag = fields::find_flag(descriptions, place, wanted)
        .map(|f| util::bits(value, f.start, f.end))
        .ok_or(Refusal::NoField);
    let (a, field_value) = read_words(field)?;
    let (b, flag_value) = read_words(flag)?;
    let rest = rest.after(&[low(name.len() as u64), is, a, field_value, b, flag_value])?;
    Some(rest.is(name))
}

// A field as the file has it: 0 and its value, or its refusal and 0. No case has another refusal.
fn read_words(field: Result<u32, Refusal>) -> Option<(u32, u32)> {
    match field {
        Ok(v) => Some((0, v)),
        Err(Refusal::Descriptions(_)) => Some((3, 0)),
        Err(Refusal::NoField) => Some((6, 0)),
        Err(_) => None,
    }
}
