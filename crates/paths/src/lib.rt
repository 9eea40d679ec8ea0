// Path entries (module 5): what a path register says. Any words will do.
#![tactic(auto)]

ghost use Rattle.std.specs.Prelude.{◌≡◌};
ghost use Rattle.refusal.specs.declared.Site.{Site};
ghost use Rattle.layout.specs.Layout.{low};
ghost use Rattle.layout.specs.Description.{descriptions_of};
ghost use Rattle.metadata.specs.Calls.{value_in};
ghost use Rattle.survey.specs.Devices.{register_in};
ghost use Rattle.named.specs.Named.{path_space, named};
ghost use Rattle.adapter.specs.Paths.{entry_of, entry_outcome};
ghost use Rattle.paths.specs.Reading.{fields_for, leads, read_by};

use adapter::EntryOut;
use fields::BitField;
use naming::{Sought, Space};
use refusal::FieldError;

// Where the fields of a path entry stand.
#[derive(Clone, Copy)]
pub struct EntryFields {
    pub valid: Option<BitField>,
    pub hop: Option<BitField>,
    pub out: Option<BitField>,
}

// Where a valid entry leads: Output HopID, then Output Adapter.
fn leads_to(fields: EntryFields, value: u32) -> Result<Option<EntryOut>, FieldError>
    ensures { result ≡ leads (value_in value fields.hop) (value_in value fields.out) }
{
    let hop = fields.hop.ok_or(FieldError::NoField)?;
    let out = fields.out.ok_or(FieldError::NoField)?;
    Ok(Some(EntryOut {
        out_adapter: (util::bits(value, out.start, out.end) % 256) as u8,
        out_hop: (util::bits(value, hop.start, hop.end) % 65536) as u16,
    }))
}

// What a path register with a value says: Valid, then Output HopID, then Output Adapter.
pub fn entry_by(fields: EntryFields, value: u32) -> Result<Option<EntryOut>, FieldError>
    ensures { result ≡ read_by fields value }
{
    let valid = fields.valid.ok_or(FieldError::NoField)?;
    if util::bits(value, valid.start, valid.end) == 0 {
        return Ok(None);
    }
    leads_to(fields, value)
}

// The fields of path registers with these ids, by the number of their adapter's kind: any number may be asked for, as in `naming::Sought`.
pub fn fields_of(descriptions: &[u32], kind: u32, ids: u32, vs: u32) -> EntryFields
    ensures { result ≡ fields_for (descriptions_of descriptions.now) kind ids vs }
{
    let q = Sought {
        space: Space::Path as u32,
        kind,
        offset: ids / 65536 % 65536,
        cap: ids % 65536,
        vs,
    };
    let Some(group) = naming::find_group(descriptions, q) else {
        return EntryFields {
            valid: None,
            hop: None,
            out: None,
        };
    };
    EntryFields {
        valid: fields::find_flag(descriptions, group, b"Valid"),
        hop: fields::find_field(descriptions, group, b"Output HopID"),
        out: fields::find_field(descriptions, group, b"Output Adapter"),
    }
}

// A path register's entry, by its words and the number of its adapter's kind, likewise.
pub fn entry_of(
    descriptions: &[u32],
    kind: u32,
    w: u32,
    ids: u32,
    vs: u32,
    value: u32,
) -> Result<Option<EntryOut>, FieldError>
    ensures { (s : Site) → entry_outcome s (low w 15) result ≡ entry_of s (register_in w ids vs value) (named (descriptions_of descriptions.now) path_space kind (register_in w ids vs value)) }
{
    entry_by(fields_of(descriptions, kind, ids, vs), value)
}
