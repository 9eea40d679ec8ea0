// The calls on a list of description words: which group names a register, its name, its fields; and our own descriptions.
#![tactic(auto)]

ghost use Rattle.std.specs.Prelude.{◌≡◌};
ghost use Rattle.layout.specs.Description.{descriptions_of};
ghost use Rattle.metadata.specs.Calls.{describe_answer, at, name_answer, field_in, field_answer};
ghost use Rattle.refusal.specs.Outcome.{value};
ghost use Rattle.description.specs.Rules.{read_descriptions};
ghost use Rattle.metadata.specs.Ours.{ours};
ghost use Rattle.metadata.specs.Work.{standing};
ghost use Rattle.refusal.specs.Refusal.{outcome};

use naming::Sought;
use refusal::Refusal;

// Whether a register group has its head at a place.
fn stands_at(t: &[u32], place: usize) -> bool
    ensures { at place (descriptions_of t.now) ≡ standing result t.now place }
{
    if t.len() <= place {
        return false;
    }
    let mut i: usize = 0;
    while i < place {
        i += layout::group_size(layout::word_at(t, i));
    }
    if place < i {
        return false;
    }
    if layout::word_at(t, place) / 268435456 % 16 != 1 {
        return false;
    }
    true
}

// The group that names a register, nameless, or refused (3).
#[tactic(auto, unfolding(crate::specs::Calls::describe_answer, description::specs::Rules::read_descriptions), using(refusal::proofs::Laws::refused_bind))]
pub fn describe(descriptions: &[u32], q: Sought) -> Result<Option<usize>, Refusal>
    ensures { outcome result ≡ describe_answer descriptions.now q }
{
    description::check(descriptions)?; // 3 alone
    Ok(naming::find_group(descriptions, q))
}

// The words of the name of the register group at a place, as a part of the words lent; empty where none stands there or the words are refused.
pub fn name(descriptions: &[u32], place: usize) -> &[u32]
    ensures { result.now ≡ name_answer descriptions.now place }
{
    let Ok(()) = description::check(descriptions) else {
        return &descriptions[..0];
    };
    if !stands_at(descriptions, place) {
        return &descriptions[..0];
    }
    let w = layout::word_at(descriptions, place);
    let start = place + 3;
    let end = start + layout::name_words(w / 65536 % 256);
    &descriptions[start..end]
}

// A field of the register group at a place: bits start to end of the value, or 6.
fn field_at(descriptions: &[u32], place: usize, value: u32, name: &[u8]) -> Result<u32, Refusal>
    ensures { outcome result ≡ field_in value name.now (at place (descriptions_of descriptions.now)) }
{
    if !stands_at(descriptions, place) {
        return Err(Refusal::NoField);
    }
    let Some(field) = fields::find_field(descriptions, place, name) else {
        return Err(Refusal::NoField);
    };
    Ok(util::bits(value, field.start, field.end))
}

// A field by name, or by short name, of the register group at a place; refused (3), or 6 alone where no register group stands there or it lacks the field.
#[tactic(auto, unfolding(crate::specs::Calls::field_answer, description::specs::Rules::read_descriptions), using(refusal::proofs::Laws::refused_bind))]
pub fn field(descriptions: &[u32], place: usize, value: u32, name: &[u8]) -> Result<u32, Refusal>
    ensures { outcome result ≡ field_answer descriptions.now place value name.now }
{
    description::check(descriptions)?; // 3 before 6
    field_at(descriptions, place, value, name)
}

// Our own descriptions, from tb_regs.h.
const OURS: [u32; 91] = [
    269156353, 0, 0, 1414877010, 1130320453, 3235667, 607391744, 1953722453, 1835099506,
    1633960224, 1919251568, 659294976, 544760141, 1885430849, 7497076, 336068613, 0, 0, 1599095873,
    895439683, 539496192, 544760141, 1970302537, 1866997876, 4475248, 369950721, 65536, 4100,
    1162756428, 1346650463, 1599292255, 49, 676073984, 1920103747, 544501349, 1802398028,
    1701860128, 25701, 762580224, 1885430849, 544367988, 1952543827, 101, 369819648, 262144, 4144,
    1599095873, 1130319940, 3170131, 796393984, 17729, 805044736, 17750, 369950720, 262144, 4288,
    1599095873, 1162429264, 1599292255, 48, 805044736, 17744, 370147328, 262144, 4864, 1599095873,
    859984725, 1599620959, 811553603, 796393728, 86, 805044736, 17744, 403243008, 0, 0, 1213481296,
    1599292255, 48, 539495424, 1886680399, 1210086517, 1145663599, 633343488, 1886680399,
    1092646005, 1953522020, 29285, 805045504, 1768710486, 100,
];

pub fn ours() -> [u32; 91]
    ensures { read_descriptions result ≡ value ours }
{
    OURS
}
