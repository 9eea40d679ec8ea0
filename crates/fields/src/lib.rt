// Names, and fields by their names (module 4), over description words.
#![tactic(auto)]

ghost use Rattle.std.specs.Prelude.{◌≡◌, ◌<◌, length};
ghost use Rattle.layout.specs.Layout.{name_bytes};
ghost use Rattle.layout.specs.Description.{field_of, fields_behind};
ghost use Rattle.fields.specs.Names.{lower, alike, name_is, field_is, find_field, find_flag};

// A field's start and end bit.
#[derive(Clone, Copy)]
pub struct BitField {
    pub start: u32,
    pub end: u32,
}

// A to Z as a to z.
fn lower_case(b: u32) -> u32
    requires { b < 256 }
    ensures { result ≡ lower b }
{
    if b < 65 {
        return b;
    }
    if 90 < b {
        return b;
    }
    b + 32
}

// Whether the n bytes at place p are the name, without regard to case.
fn same_name(t: &[u32], p: usize, n: u32, name: &[u8]) -> bool
    ensures { result ≡ alike (name_bytes t.now p n) name.now }
{
    if name.len() != n as usize {
        return false;
    }
    for (j, &b) in name.iter().enumerate() {
        if lower_case(layout::byte_at(t, p, j)) != lower_case(b as u32) {
            return false;
        }
    }
    true
}

// Whether the register group at a place has the name. A word of a register's kind is taken as its head, wherever it stands; any other has no name.
pub fn name_is(descriptions: &[u32], place: usize, name: &[u8]) -> bool
    ensures { result ≡ name_is descriptions.now place name.now }
{
    let w = layout::word_at(descriptions, place);
    if w / 268435456 % 16 != 1 {
        return false;
    }
    if descriptions.len() <= place {
        return false;
    }
    same_name(descriptions, place + 3, w / 65536 % 256, name)
}

// Whether the field group at i has the name, as name or short name.
fn field_is(t: &[u32], i: usize, name: &[u8]) -> bool
    requires { i < length t.now }
    ensures { result ≡ field_is name.now (field_of t.now i) }
{
    let w = layout::word_at(t, i);
    let n = w / 256 % 256;
    if same_name(t, i + 1, n, name) {
        return true;
    }
    let s = w % 256;
    if s < 1 {
        return false;
    }
    same_name(t, i + 1 + layout::name_words(n), s, name)
}

// The first field with the name, of those behind the register group at a place. The words need not be well formed; the word at the place is taken as a head of its own kind, behind whose group the fields stand.
pub fn find_field(descriptions: &[u32], place: usize, name: &[u8]) -> Option<BitField>
    ensures { result ≡ find_field name.now (fields_behind descriptions.now place) }
{
    if descriptions.len() <= place {
        return None;
    }
    let mut i = place + layout::group_size(layout::word_at(descriptions, place));
    while i < descriptions.len() {
        let w = layout::word_at(descriptions, i);
        if w / 268435456 % 16 != 2 {
            return None;
        }
        if field_is(descriptions, i, name) {
            return Some(BitField {
                start: w / 8388608 % 32,
                end: w / 262144 % 32,
            });
        }
        i += layout::group_size(w);
    }
    None
}

// The same for a flag: a field of one bit.
pub fn find_flag(descriptions: &[u32], place: usize, name: &[u8]) -> Option<BitField>
    ensures { result ≡ find_flag name.now (fields_behind descriptions.now place) }
{
    let field = find_field(descriptions, place, name)?;
    if field.start != field.end {
        return None;
    }
    Some(field)
}
