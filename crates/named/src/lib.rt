// Registers of a survey by their names, and their fields and flags, over words that were checked before. Any words will do.
#![tactic(auto)]

ghost use Rattle.std.specs.Prelude.{◌≡◌, length};
ghost use Rattle.layout.specs.Layout.{bits, low};
ghost use Rattle.layout.specs.Description.{described, descriptions_of};
ghost use Rattle.naming.specs.Naming.{naming};
ghost use Rattle.fields.specs.Names.{find_field};
ghost use Rattle.metadata.specs.Calls.{value_in, flag_in};
ghost use Rattle.listing.specs.After.{after, register_at};
ghost use Rattle.named.specs.Named.{having_name, found_named, by_name, named_at, at_places, register_named, read_field, read_flag, Within};
ghost use Rattle.refusal.specs.Refusal.{field_read};
ghost use Rattle.named.specs.Work.{Spans, Widened, Counted};

use naming::{Sought, Space};
use refusal::FieldError;
use usb4::AdapterType;

// A register by the place of its group in the survey, and its description by the place of its group in the descriptions.
#[derive(Clone, Copy)]
pub struct NamedAt {
    pub register: usize,
    pub group: usize,
}

// The registers of an adapter of a kind, as they stand in survey words from a place on, with the descriptions that name them.
#[derive(Clone, Copy)]
pub struct Registers<'a> {
    pub descriptions: &'a [u32],
    pub survey: &'a [u32],
    pub from: usize,
    pub kind: AdapterType,
}

// The least and the largest relative offset of the groups that have a name; least above largest where none has it.
#[derive(Clone, Copy)]
pub struct Offsets {
    pub least: u32,
    pub most: u32,
}

// With one more offset.
fn widened(o: Offsets, at: u32) -> Offsets
    ensures { Widened o at result }
{
    if at < o.least {
        if o.most < at {
            return Offsets {
                least: at,
                most: at,
            };
        }
        return Offsets {
            least: at,
            most: o.most,
        };
    }
    if o.most < at {
        return Offsets {
            least: o.least,
            most: at,
        };
    }
    o
}

// With the offset of the group at a head place, if it has the name.
fn counted(descriptions: &[u32], i: usize, name: &[u8], o: Offsets) -> Offsets
    ensures { Counted descriptions.now name.now i o result }
{
    if !fields::name_is(descriptions, i, name) {
        return o;
    }
    widened(o, layout::word_at(descriptions, i) % 65536)
}

// The offsets of the groups that have a name: so that registers with others need not be looked up.
fn offsets_named(descriptions: &[u32], name: &[u8]) -> Offsets
    ensures { Spans descriptions.now name.now result }
{
    let mut o = Offsets {
        least: 65536,
        most: 0,
    };
    let mut i: usize = 0;
    while i < descriptions.len() {
        o = counted(descriptions, i, name, o);
        i += layout::group_size(layout::word_at(descriptions, i));
    }
    o
}

// The group that names a register with these ids, where that group has the name; o are the offsets of the name.
fn name_group(
    descriptions: &[u32],
    space: u32,
    kind: u32,
    ids: u32,
    vs: u32,
    name: &[u8],
    o: Offsets,
) -> Option<usize>
    requires { Spans descriptions.now name.now o }
    ensures { found_named descriptions.now result ≡ having_name name.now (naming (record { space = space; kind = kind; offset = bits ids 16 31; cap = low ids 15; vs = vs }) (descriptions_of descriptions.now)) }
{
    let q = Sought {
        space,
        kind,
        offset: ids / 65536 % 65536,
        cap: ids % 65536,
        vs,
    };
    if q.offset < o.least {
        return None;
    }
    if o.most < q.offset {
        return None;
    }
    let Some(group) = naming::find_group(descriptions, q) else {
        return None;
    };
    if !fields::name_is(descriptions, group, name) {
        return None;
    }
    Some(group)
}

// The first register of adapter space from a place on, before the next head, that has the name. Space and kind are as in `naming::Sought`, where any numbers may be asked for.
pub fn by_name(
    descriptions: &[u32],
    survey: &[u32],
    from: usize,
    space: u32,
    kind: u32,
    name: &[u8],
) -> Option<NamedAt>
    ensures answer { named_at descriptions.now survey.now result ≡ by_name (descriptions_of descriptions.now) space kind name.now (after survey.now from).registers }
    ensures within { Within (length survey.now) result }
{
    let o = offsets_named(descriptions, name);
    let mut i = listing::next_register(survey, from, false);
    while i < survey.len() {
        let ids = layout::word_at(survey, i + 1);
        let vs = layout::word_at(survey, i + 2);
        let found = name_group(descriptions, space, kind, ids, vs, name, o);
        if let Some(group) = found {
            return Some(NamedAt { register: i, group });
        }
        i = listing::next_register(survey, i + 4, false);
    }
    None
}

// A field's value, of the register group at a place of the descriptions.
pub fn field_value(
    descriptions: &[u32],
    group: usize,
    value: u32,
    name: &[u8],
) -> Result<u32, FieldError>
    ensures { field_read result ≡ value_in value (find_field name.now (described descriptions.now group).fields) }
{
    let Some(field) = fields::find_field(descriptions, group, name) else {
        return Err(FieldError::NoField);
    };
    Ok(util::bits(value, field.start, field.end))
}

// Whether a flag is set, of the register group at a place of the descriptions.
pub fn flag_value(
    descriptions: &[u32],
    group: usize,
    value: u32,
    name: &[u8],
) -> Result<bool, FieldError>
    ensures { field_read result ≡ flag_in value name.now (Some (described descriptions.now group)) }
{
    let Some(flag) = fields::find_flag(descriptions, group, name) else {
        return Err(FieldError::NoField);
    };
    Ok(util::bits(value, flag.start, flag.end) != 0)
}

impl Registers<'_> {
    // The first register that has a name.
    pub fn named(&self, name: &[u8]) -> Option<NamedAt>
        ensures answer { named_at self.now.descriptions.now self.now.survey.now result ≡ register_named self.now name.now }
        ensures within { Within (length self.now.survey.now) result }
    {
        by_name(
            self.descriptions,
            self.survey,
            self.from,
            Space::Adapter as u32,
            u32::from(self.kind),
            name,
        )
    }

    // The value of the register at a place; 0 past the end of the words.
    fn value(&self, at: NamedAt) -> u32
        ensures { result ≡ (register_at self.now.survey.now at.register).value }
    {
        layout::word_at(self.survey, at.register.saturating_add(3))
    }

    // The value of a field of a register that was found by its name.
    pub fn field(&self, at: NamedAt, name: &[u8]) -> Result<u32, FieldError>
        ensures { field_read result ≡ read_field (at_places self.now at) name.now }
    {
        field_value(self.descriptions, at.group, self.value(at), name)
    }

    // The same for a flag.
    pub fn flag(&self, at: NamedAt, name: &[u8]) -> Result<bool, FieldError>
        ensures { field_read result ≡ read_flag (at_places self.now at) name.now }
    {
        flag_value(self.descriptions, at.group, self.value(at), name)
    }
}
