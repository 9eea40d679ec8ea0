// Whether a discovery answers what the words of a case say, and leaves its output as it should. oracle/make-discoveries says what questions and answers are.
use crate::loads::Survey;
use crate::words::{after_written, kept, mark, number, refuses, value};
use refusal::Site;

// A discovery into an output whose words are marked first.
fn after_list<'a>(
    rest: &'a [u8],
    of: Survey<'_>,
    site: Site,
    output: &mut [u32],
) -> Option<&'a [u8]> {
    mark(output);
    let answer = discoveries::discover(of.descriptions, of.words, site, output);
    let written = match answer {
        Ok(Some(words)) => words,
        _ => 0,
    };
    let said = answer.map(|list| list.map(|words| [value(words as u64)]));
    after_written(rest, said, output, written)
}

// The room stands first, and then the answer.
pub fn after_discovery<'a>(rest: &'a [u8], of: Survey<'_>, site: Site) -> Option<&'a [u8]> {
    let mut output = [0u32; 16400];
    let (room, rest) = number(rest)?;
    after_list(rest, of, site, output.get_mut(..room as usize)?)
}

// Whether a discovery is refused with that word.
pub fn discovery_refuses(of: Survey<'_>, site: Site, word: u32) -> bool {
    let mut output = [0u32; 4];
    mark(&mut output);
    let answer = discoveries::discover(of.descriptions, of.words, site, &mut output);
    refuses(answer, word) && kept(&output, 0)
}
