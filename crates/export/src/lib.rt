// The calls that programs in other languages link: numbers and slices in, eight words of answer out (answers/specs/Said.antt). bindings/ has the C header and what the boundary
// does not check.
#![tactic(auto)]

ghost use Rattle.std.specs.Prelude.{◌≡◌};
ghost use Rattle.refusal.specs.Outcome.{value};
ghost use Rattle.register.specs.Line.{line_answer};
ghost use Rattle.description.specs.Rules.{check_of};
ghost use Rattle.survey.specs.Rules.{check_of as survey_check};
ghost use Rattle.metadata.specs.Calls.{describe_answer, field_answer};
ghost use Rattle.acceptance.specs.Accepted.{accepted_answer};
ghost use Rattle.adapters.specs.Calls.{adapter_answer, speed_answer, max_hop_answer};
ghost use Rattle.parents.specs.Parents.{parent_answer};
ghost use Rattle.answers.specs.Said.{said, always, perhaps, one, bare, register_words, hex_of_bits};
ghost use Rattle.lookups.specs.Handed.{OursSaid};
ghost use Rattle.replies.specs.Replies.{counts_words, info_words, speed_words};
ghost use Rattle.export.specs.Exported.{DumpSaid, TextSaid, WalkSaid, DiscoverSaid};

use naming::Sought;
use refusal::Site;
use tables::Stand;

// A hex number of 16, 32 or 64 bits: its value, or none.
#[unsafe(no_mangle)]
pub extern "C" fn tunnels_parse_hex(text: &[u8], bits: u32, answer: &mut [u64; 8])
    ensures { answer.new ≡ said (perhaps one (value (hex_of_bits bits text.now))) }
{
    let a = answers::hex(text, bits);
    *answer = a;
}

// A line of a dump: offset, relative offset, cap id, vs id and value of its record, or none; 1.
#[unsafe(no_mangle)]
pub extern "C" fn tunnels_parse_line(line: &[u8], answer: &mut [u64; 8])
    ensures { answer.new ≡ said (perhaps register_words (line_answer line.now)) }
{
    let a = answers::line(register::parse_debugfs(line));
    *answer = a;
}

// A dump: the number of its records, which are written as register groups; 1, 2.
#[unsafe(no_mangle)]
pub extern "C" fn tunnels_read_dump(
    dump: &[u8],
    scratch: &mut [u32],
    output: &mut [u32],
    answer: &mut [u64; 8],
)
    ensures { DumpSaid dump.now scratch.old output.old scratch.new output.new answer.new }
{
    let a = answers::always(dump::read(dump, scratch, output));
    *answer = a;
}

// Whether description words are well formed, or 3.
#[tactic(auto, unfolding(answers::specs::Said::said, answers::specs::Said::padded, answers::specs::Said::always, answers::specs::Said::bare, refusal::specs::Outcome::bind))]
#[unsafe(no_mangle)]
pub extern "C" fn tunnels_check_descriptions(words: &[u32], answer: &mut [u64; 8])
    ensures { answer.new ≡ said (always bare (check_of words.now)) }
{
    let a = lookups::checked(description::check(words));
    *answer = a;
}

// Whether survey words are well formed, or 4.
#[unsafe(no_mangle)]
pub extern "C" fn tunnels_check_survey(words: &[u32], answer: &mut [u64; 8])
    ensures { answer.new ≡ said (always bare (survey_check words.now)) }
{
    let a = lookups::checked(wellformed::check(words));
    *answer = a;
}

// The head place of the group that names a register, or none; 3.
#[tactic(auto, unfolding(answers::specs::Said::said, answers::specs::Said::padded, answers::specs::Said::perhaps, answers::specs::Said::words_in, refusal::specs::Outcome::bind))]
#[unsafe(no_mangle)]
pub extern "C" fn tunnels_describe(
    descriptions: &[u32],
    space: u32,
    kind: u32,
    relative_offset: u32,
    cap_id: u32,
    vs_id: u32,
    answer: &mut [u64; 8],
)
    ensures { answer.new ≡ said (perhaps one (describe_answer descriptions.now (record { space = space; kind = kind; offset = relative_offset; cap = cap_id; vs = vs_id }))) }
{
    let q = Sought {
        space,
        kind,
        offset: relative_offset,
        cap: cap_id,
        vs: vs_id,
    };
    let a = answers::perhaps(metadata::describe(descriptions, q));
    *answer = a;
}

// The value of a field of the group at a place; 3, 6.
#[unsafe(no_mangle)]
pub extern "C" fn tunnels_field(
    descriptions: &[u32],
    place: usize,
    value: u32,
    name: &[u8],
    answer: &mut [u64; 8],
)
    ensures { answer.new ≡ said (always one (field_answer descriptions.now place value name.now)) }
{
    let a = answers::always(metadata::field(descriptions, place, value, name));
    *answer = a;
}

// A survey's devices and valid path entries; 3 to 9.
#[unsafe(no_mangle)]
pub extern "C" fn tunnels_load(descriptions: &[u32], survey: &[u32], answer: &mut [u64; 8])
    ensures { answer.new ≡ said (always counts_words (accepted_answer descriptions.now survey.now)) }
{
    let a = replies::loaded(acceptance::accepted(descriptions, survey));
    *answer = a;
}

// An adapter's kind, state, lane 0, lane 1, least HopID (65,536: none), whether it is enabled; 3 to 9, 14.
#[unsafe(no_mangle)]
pub extern "C" fn tunnels_adapter(
    descriptions: &[u32],
    survey: &[u32],
    place: usize,
    adapter: u8,
    answer: &mut [u64; 8],
)
    ensures { answer.new ≡ said (always info_words (adapter_answer descriptions.now survey.now place adapter)) }
{
    let site = Site { place, adapter };
    let a = replies::adapter(adapters::adapter(descriptions, survey, site));
    *answer = a;
}

// An adapter's link speed; 3 to 9, 14, 6.
#[unsafe(no_mangle)]
pub extern "C" fn tunnels_link_speed(
    descriptions: &[u32],
    survey: &[u32],
    place: usize,
    adapter: u8,
    answer: &mut [u64; 8],
)
    ensures { answer.new ≡ said (always speed_words (speed_answer descriptions.now survey.now place adapter)) }
{
    let site = Site { place, adapter };
    let a = answers::always(adapters::link_speed(descriptions, survey, site));
    *answer = a;
}

// An adapter's largest HopID, or none; 3 to 9, 14, 6.
#[tactic(auto, unfolding(answers::specs::Said::said, answers::specs::Said::padded, answers::specs::Said::perhaps, answers::specs::Said::words_in, refusal::specs::Outcome::bind))]
#[unsafe(no_mangle)]
pub extern "C" fn tunnels_max_hop(
    descriptions: &[u32],
    survey: &[u32],
    place: usize,
    adapter: u8,
    answer: &mut [u64; 8],
)
    ensures { answer.new ≡ said (perhaps one (max_hop_answer descriptions.now survey.now place adapter)) }
{
    let site = Site { place, adapter };
    let a = answers::perhaps(adapters::max_hop(descriptions, survey, site));
    *answer = a;
}

// The place of a device's parent, or none; 3 to 9, 14, 6, 11.
#[tactic(auto, unfolding(answers::specs::Said::said, answers::specs::Said::padded, answers::specs::Said::perhaps, answers::specs::Said::words_in, refusal::specs::Outcome::bind))]
#[unsafe(no_mangle)]
pub extern "C" fn tunnels_parent(
    descriptions: &[u32],
    survey: &[u32],
    place: usize,
    answer: &mut [u64; 8],
)
    ensures { answer.new ≡ said (perhaps one (parent_answer descriptions.now survey.now place)) }
{
    let a = answers::perhaps(parents::parent_from(descriptions, survey, place));
    *answer = a;
}

// The words of a single walk's path, or none; 3 to 9, 14, then 6, 10 to 13 as met, 2 last.
#[unsafe(no_mangle)]
pub extern "C" fn tunnels_walk(
    descriptions: &[u32],
    survey: &[u32],
    place: usize,
    adapter: u8,
    hop: u16,
    output: &mut [u32],
    answer: &mut [u64; 8],
)
    ensures { WalkSaid descriptions.now survey.now (record { place = place; adapter = adapter; hop_id = hop }) output.old output.new answer.new }
{
    let stand = Stand {
        place,
        adapter,
        hop_id: hop,
    };
    let a = replies::walk(walks::discover_path(descriptions, survey, stand, output));
    *answer = a;
}

// The words of the tunnels from an adapter, or that there is no list; 3 to 9, 14, then refusals as met, 2 last.
#[unsafe(no_mangle)]
pub extern "C" fn tunnels_discover(
    descriptions: &[u32],
    survey: &[u32],
    place: usize,
    adapter: u8,
    output: &mut [u32],
    answer: &mut [u64; 8],
)
    ensures { DiscoverSaid descriptions.now survey.now place adapter output.old output.new answer.new }
{
    let site = Site { place, adapter };
    let a = answers::perhaps(discoveries::discover(descriptions, survey, site, output));
    *answer = a;
}

// The survey words of a text; 2 for its length, 1, 4, and 2 last.
#[unsafe(no_mangle)]
pub extern "C" fn tunnels_text(text: &[u8], output: &mut [u32], answer: &mut [u64; 8])
    ensures { TextSaid text.now output.old output.new answer.new }
{
    let a = answers::always(text::read(text, output));
    *answer = a;
}

// The words of our descriptions; 2.
#[unsafe(no_mangle)]
pub extern "C" fn tunnels_our_descriptions(output: &mut [u32], answer: &mut [u64; 8])
    ensures { OursSaid output.old output.new answer.new }
{
    let a = lookups::our_descriptions(output);
    *answer = a;
}
