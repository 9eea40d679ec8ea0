// Whether a single walk answers what the words of a case say, and leaves its output as it should. oracle/make-walks says what questions and answers are.
use crate::loads::Survey;
use crate::words::{after_written, kept, mark, number, refuses};
use refusal::Site;
use tables::Stand;

// One for the path and two a hop.
fn path_words(hops: usize) -> usize {
    hops.saturating_mul(2).saturating_add(1)
}

// A walk into an output whose words are marked first.
fn after_path<'a>(
    rest: &'a [u8],
    of: Survey<'_>,
    stand: Stand,
    output: &mut [u32],
) -> Option<&'a [u8]> {
    mark(output);
    let answer = walks::discover_path(of.descriptions, of.words, stand, output);
    let written = match answer {
        Ok(Some(hops)) => path_words(hops),
        _ => 0,
    };
    after_written(rest, answer.map(|path| path.map(|_| [])), output, written)
}

// The start's HopID and the room stand first, and then the answer.
pub fn after_walk<'a>(rest: &'a [u8], of: Survey<'_>, site: Site) -> Option<&'a [u8]> {
    let mut output = [0u32; 16400];
    let (start, rest) = number(rest)?;
    let room = output.get_mut(..(start / 65536) as usize)?;
    let stand = Stand {
        place: site.place,
        adapter: site.adapter,
        hop_id: (start % 65536) as u16,
    };
    after_path(rest, of, stand, room)
}

// Whether a walk is refused with that word.
pub fn walk_refuses(of: Survey<'_>, site: Site, word: u32) -> bool {
    let mut output = [0u32; 4];
    mark(&mut output);
    let stand = Stand {
        place: site.place,
        adapter: site.adapter,
        hop_id: 8,
    };
    let answer = walks::discover_path(of.descriptions, of.words, stand, &mut output);
    refuses(answer, word) && kept(&output, 0)
}
