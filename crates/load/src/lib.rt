// Loading a survey: document 01's order of refusals 3 to 9, and the tables that every call on a survey goes on with.
#![tactic(auto)]

ghost use Rattle.std.specs.Prelude.{ℕ, ◌+◌, ◌*◌, ◌≤◌, ◌<◌, ◌≡◌, List, [], ◌∷◌, length, IfOk};
ghost use Rattle.refusal.specs.Outcome.{refused, value, bind};
ghost use Rattle.refusal.specs.declared.Site.{Site};
ghost use Rattle.layout.specs.Description.{Description, descriptions_of};
ghost use Rattle.usb4.specs.Numbers.{type_number};
ghost use Rattle.named.specs.Named.{named_at, Within};
ghost use Rattle.survey.specs.Devices.{devices_of};
ghost use Rattle.listing.specs.After.{after, adapter_at, device_at, register_at};
ghost use Rattle.adapter.specs.Adapter.{adapter_site, facts_row, min_hop};
ghost use Rattle.adapter.specs.Paths.{entries_from, entries_by};
ghost use Rattle.tables.specs.Rows.{no_rows, joined};
ghost use Rattle.tables.specs.Packed.{speed_by, number_by, entry_word, adapter_word, device_row};
ghost use Rattle.tables.specs.Tables.{rows_of, Fits, Tabled};
ghost use Rattle.load.specs.Loading.{and_then, load_adapter, load_adapters, router_cs1, upstream_in, fitting, load_device, load_from, loaded};
ghost use Rattle.load.specs.Answers.{answered, tables_rows, counts_of, counts_used};
ghost use Rattle.load.specs.Work.{HopFits, one_entry, one_adapter, one_device, entry_rows, Room, FieldsAt, KeptFor, Passed, ToDevice, fits_by};
ghost use Rattle.refusal.specs.Refusal.{fault_outcome, outcome, field_at};

use adapter::{EntryOut, Facts};
use named::NamedAt;
use naming::Space;
use paths::EntryFields;
use refusal::{Fault, FieldError, Refusal, Site};
use std::marker::Model;
use tables::{DeviceFacts, Tables};
use usb4::{AdapterType, Kind, Speed};

// How many rows of each kind there are.
#[derive(Clone, Copy)]
pub struct Counts {
    pub entries: usize,
    pub adapters: usize,
    pub devices: usize,
}

// The same in 32 bits, of room that is used.
#[derive(Clone, Copy)]
struct Used {
    entries: u32,
    adapters: u32,
    devices: u32,
}

impl Used {
    #[inline(always)]
    fn counts(self) -> Counts
        ensures { result ≡ counts_used self }
    {
        Counts {
            entries: self.entries as usize,
            adapters: self.adapters as usize,
            devices: self.devices as usize,
        }
    }
}

// A survey's rows as far as they are loaded, in its order, with room for those of any survey. tables/specs/Packed.antt says what a word holds.
// `used` has 32 bits a count, so that the compiler sees that no row is put where it stands. Where rows are only counted, in `accept`, it then holds `used` in registers, and no room at all.
// For that all that loads is taken into `accept`, and `#[inline(always)]` down to here: a call would be handed the room.
#[derive(Drop)]
struct LoadedRows {
    used: Used,
    entries: [u64; 4096],
    adapters: [u64; 16384],
    devices: [DeviceFacts; 4096],
}

impl Model for LoadedRows {
    ghost use Rattle.tables.specs.Rows.{Rows};

    ghost Value = { Rows };

    ghost use Rattle.load.specs.Answers.{held, counts_used, Counted};

    ghost view = { λ r. held r.entries r.adapters r.devices (counts_used r.used) };

    ghost invariant = { λ r. Counted r.devices (counts_used r.used) };
}

impl LoadedRows {
    // No rows yet.
    #[inline(always)]
    fn none() -> Self
        ensures { result ≡ no_rows }
    {
        LoadedRows {
            used: Used {
                entries: 0,
                adapters: 0,
                devices: 0,
            },
            entries: [0; 4096],
            adapters: [0; 16384],
            devices: [DeviceFacts {
                kind: Kind::Domain,
                usb4: false,
                domain: 0,
                route: 0,
                upstream: Ok(None),
            }; 4096],
        }
    }

    // How many rows there are.
    #[inline(always)]
    fn counts(&self) -> Counts
        ensures { result ≡ counts_of self.now }
    {
        self.used.counts()
    }

    // Leaves no rows.
    #[inline(always)]
    fn clear(&mut self)
        ensures { self.new ≡ no_rows }
    {
        self.used = Used {
            entries: 0,
            adapters: 0,
            devices: 0,
        };
    }

    // Each of these puts a row behind the others of its kind.
    #[inline(always)]
    fn put_entry(&mut self, site: Site, in_hop: u32, out: EntryOut)
        requires { (length self.old.entries < 4096) × (site.place < 65536) × (in_hop < 65536) }
        ensures { self.new ≡ joined self.old (one_entry (record { device = site.place; adapter = site.adapter; in_hop = in_hop; out_adapter = out.out_adapter; out_hop = out.out_hop })) }
    {
        let n = self.used.entries as usize;
        self.entries[n] = entry_word(
            site.place,
            site.adapter,
            in_hop,
            out.out_adapter,
            out.out_hop,
        );
        self.used.entries += 1;
    }

    #[inline(always)]
    fn put_adapter(&mut self, place: usize, facts: Facts)
        requires { (length self.old.adapters < 16384) × (place < 65536) × HopFits facts.max_hop }
        ensures { self.new ≡ joined self.old (one_adapter (facts_row place facts)) }
    {
        let n = self.used.adapters as usize;
        self.adapters[n] = adapter_word(place, facts);
        self.used.adapters += 1;
    }

    #[inline(always)]
    fn put_device(&mut self, device: DeviceFacts)
        requires { length self.old.devices < 4096 }
        ensures { self.new ≡ joined self.old (one_device (device_row (length self.old.devices) device)) }
    {
        let n = self.used.devices as usize;
        self.devices[n] = device;
        self.used.devices += 1;
    }

    // The parts of the tables that are used.
    fn tables(&self) -> Tables<'_>
        ensures rows { rows_of result ≡ self.now }
        ensures fits { Fits result }
    {
        let counts = self.used.counts();
        Tables {
            entries: &self.entries[..counts.entries],
            adapters: &self.adapters[..counts.adapters],
            devices: &self.devices[..counts.devices],
        }
    }
}

// A loaded survey.
#[derive(Drop)]
pub struct Loaded {
    answer: Result<(), Refusal>,
    rows: LoadedRows,
}

impl Model for Loaded {
    ghost use Rattle.refusal.specs.Outcome.{Outcome};
    ghost use Rattle.tables.specs.Rows.{Rows};

    ghost Value = { Outcome Rows };

    ghost use Rattle.refusal.specs.Refusal.{outcome};
    ghost use Rattle.load.specs.Answers.{answered, LoadedBy};

    ghost view = { λ l. answered (outcome l.answer) l.rows };

    ghost invariant = { λ l. LoadedBy l.answer l.rows };
}

impl Loaded {
    // No survey yet: 14, and room for the tables of any.
    // Not `#[inline(always)]`: then it is taken into its callers before its own parts are put in place, and where such a caller is a call itself these are cleared apart and copied.
    pub fn none() -> Self
        ensures { result ≡ refused 14 [] }
    {
        Loaded {
            answer: Err(Refusal::Missing),
            rows: LoadedRows::none(),
        }
    }

    // A survey in place of what was loaded before: as `load`, but into room that the caller has, so that nothing is copied, also where the tables are lent to a call.
    // It stays a call: there is one loading for all that want tables, and its callers are small.
    #[inline(never)]
    pub fn load(&mut self, descriptions: &[u32], survey: &[u32])
        ensures { self.new ≡ loaded descriptions.now survey.now }
    {
        self.answer = load_into(descriptions, survey, &mut self.rows);
    }

    // The tables that the survey loads to, or why it is refused.
    pub fn tables(&self) -> Result<Tables<'_>, Refusal>
        ensures rows { tables_rows result ≡ self.now }
        ensures fits { IfOk result (λ t. Fits t × Tabled t) }
    {
        self.answer?;
        Ok(self.rows.tables())
    }
}

// The fields of path registers with these ids.
#[derive(Clone, Copy)]
pub struct Kept {
    pub ids: u32,
    pub vs: u32,
    pub fields: EntryFields,
}

// An entry as a word.
fn entry_word(place: usize, adapter: u8, in_hop: u32, out_adapter: u8, out_hop: u16) -> u64
    requires { (place < 65536) × (in_hop < 65536) }
    ensures { entry_word result ≡ record { device = place; adapter = adapter; in_hop = in_hop; out_adapter = out_adapter; out_hop = out_hop } }
{
    (place as u64) * 281474976710656
        + (adapter as u64) * 1099511627776
        + (in_hop as u64) * 16777216
        + (out_adapter as u64) * 65536
        + (out_hop as u64)
}

// A speed as a code: its number, or 4 where it is refused.
fn speed_code(speed: Result<Speed, FieldError>) -> u64
    ensures { (result < 16) × ((s : Site) → speed_by s result ≡ field_at s speed) }
{
    match speed {
        Ok(v) => u32::from(v) as u64,
        Err(FieldError::NoField) => 4,
    }
}

// A largest HopID as a code: 0 none, 1 refused, else the number and 2.
fn hop_code(hop: Result<Option<u32>, FieldError>) -> u64
    requires { HopFits hop }
    ensures { (result < 1048576) × ((s : Site) → number_by s result ≡ field_at s hop) }
{
    match hop {
        Ok(Some(h)) => h as u64 + 2,
        Ok(None) => 0,
        Err(FieldError::NoField) => 1,
    }
}

// An adapter as a word.
fn adapter_word(place: usize, f: Facts) -> u64
    requires { (place < 65536) × HopFits f.max_hop }
    ensures { adapter_word result ≡ facts_row place f }
{
    let speed = f.speed;
    let hop = f.max_hop;
    (place as u64) * 281474976710656
        + (f.number as u64) * 1099511627776
        + hop_code(hop) * 1048576
        + (u32::from(f.kind) as u64) * 65536
        + (u32::from(f.state) as u64) * 4096
        + speed_code(speed) * 256
        + u64::from(f.lane0) * 16
        + u64::from(f.lane1)
}

// The fields for the path register at i: those that are kept, unless it is looked at and has other ids.
fn keep(
    descriptions: &[u32],
    survey: &[u32],
    i: usize,
    kind: AdapterType,
    least: u32,
    kept: Kept,
) -> Kept
    requires { (i + 4 ≤ length survey.now) × KeptFor (descriptions_of descriptions.now) (type_number kind) kept }
    ensures { KeptFor (descriptions_of descriptions.now) (type_number kind) result × FieldsAt (descriptions_of descriptions.now) (type_number kind) least (register_at survey.now i) result.fields }
{
    if !hopids::looked_at(layout::word_at(survey, i) % 65536, least) {
        return kept;
    }
    let ids = layout::word_at(survey, i + 1);
    let vs = layout::word_at(survey, i + 2);
    if kept.ids == ids {
        if kept.vs == vs {
            return kept;
        }
    }
    Kept {
        ids,
        vs,
        fields: paths::fields_of(descriptions, u32::from(kind), ids, vs),
    }
}

// Puts the entry of the path register at i, if it is one.
#[inline(always)]
fn push_entry(
    survey: &[u32],
    i: usize,
    least: u32,
    fields: EntryFields,
    site: Site,
    rows: &mut LoadedRows,
) -> Result<(), FieldError>
    requires { Room survey.now i rows.old × (i + 4 ≤ length survey.now) × (site.place < 65536) }
    ensures rows { (ds : List Description) (k : ℕ) → FieldsAt ds k least (register_at survey.now i) fields → answered (field_at site result) rows.new ≡ and_then (value rows.old) (entry_rows site (entries_from ds site k least (register_at survey.now i ∷ []))) }
    ensures room { Room survey.now (i + 4) rows.new }
{
    let offset = layout::word_at(survey, i) % 65536;
    if !hopids::looked_at(offset, least) {
        return Ok(());
    }
    let read = paths::entry_by(fields, layout::word_at(survey, i + 3))?;
    let Some(entry) = read else {
        return Ok(());
    };
    rows.put_entry(site, offset / 2, entry);
    Ok(())
}

// Puts the entries of the path registers from a place on, and says where they end.
#[inline(always)]
fn push_from(
    descriptions: &[u32],
    survey: &[u32],
    from: usize,
    kind: AdapterType,
    least: u32,
    site: Site,
    rows: &mut LoadedRows,
) -> Result<usize, FieldError>
    requires { Room survey.now from rows.old × (site.place < 65536) × (least < 65536) }
    ensures rows { answered (field_at site result) rows.new ≡ and_then (value rows.old) (entry_rows site (entries_from (descriptions_of descriptions.now) site (type_number kind) least (after survey.now from).entries)) }
    ensures within { IfOk result (λ next. Passed survey.now from rows.new next) }
{
    let mut at = from;
    let mut i = listing::next_register(survey, from, true);
    if survey.len() <= i {
        return Ok(at);
    }
    let mut kept = Kept {
        ids: 0,
        vs: 0,
        fields: paths::fields_of(descriptions, u32::from(kind), 0, 0),
    };
    while i < survey.len() {
        kept = keep(descriptions, survey, i, kind, least, kept);
        push_entry(survey, i, least, kept.fields, site, rows)?;
        at = i + 4;
        i = listing::next_register(survey, at, true);
    }
    Ok(at)
}

// The entries of the adapter whose head stands at a place: none where its kind has no least HopID.
#[inline(always)]
fn push_entries(
    descriptions: &[u32],
    survey: &[u32],
    at: usize,
    kind: AdapterType,
    site: Site,
    rows: &mut LoadedRows,
) -> Result<usize, FieldError>
    requires { Room survey.now (at + 1) rows.old × (site.place < 65536) }
    ensures rows { answered (field_at site result) rows.new ≡ and_then (value rows.old) (entry_rows site (entries_by (descriptions_of descriptions.now) site (type_number kind) (after survey.now (at + 1)).entries (min_hop kind))) }
    ensures within { IfOk result (λ next. Passed survey.now (at + 1) rows.new next) }
{
    let Some(least) = hopids::min_hop(kind) else {
        return Ok(at + 1);
    };
    push_from(descriptions, survey, at + 1, kind, least, site, rows)
}

// The adapter whose head stands at a place: 5, state, 9, entries. Answers where its words end.
#[inline(always)]
fn load_adapter(
    descriptions: &[u32],
    survey: &[u32],
    at: usize,
    usb4: bool,
    place: usize,
    rows: &mut LoadedRows,
) -> Result<usize, Fault>
    requires { Room survey.now at rows.old × (at < length survey.now) × (place < 65536) }
    ensures rows { answered (fault_outcome result) rows.new ≡ and_then (value rows.old) (load_adapter (descriptions_of descriptions.now) place usb4 (adapter_at survey.now at)) }
    ensures within { IfOk result (λ next. Passed survey.now (at + 1) rows.new next) }
{
    let facts = adapter::decode(descriptions, survey, at, usb4, place)?;
    let site = Site {
        place,
        adapter: facts.number,
    };
    let lane1 = facts.lane1;
    let kind = facts.kind;
    if layout::word_at(survey, at) / 512 % 4 == 2 {
        if !lane1 {
            return Err(Fault::NoPathDump(site));
        }
    }
    rows.put_adapter(place, facts);
    let Ok(next) = push_entries(descriptions, survey, at, kind, site, rows) else {
        return Err(Fault::NoField(site));
    };
    Ok(next)
}

// The adapters from a place on, up to the next device. Answers where that stands.
#[inline(always)]
fn load_adapters(
    descriptions: &[u32],
    survey: &[u32],
    from: usize,
    usb4: bool,
    place: usize,
    rows: &mut LoadedRows,
) -> Result<usize, Fault>
    requires { Room survey.now from rows.old × (place < 65536) }
    ensures rows { answered (fault_outcome result) rows.new ≡ and_then (value rows.old) (load_adapters (descriptions_of descriptions.now) place usb4 (after survey.now from).adapters) }
    ensures within { IfOk result (λ next. ToDevice survey.now from rows.new next) }
{
    let mut i = listing::next_head(survey, from);
    while i < survey.len() {
        if survey[i] / 268435456 % 16 != 4 {
            return Ok(i);
        }
        let next = load_adapter(descriptions, survey, i, usb4, place, rows)?;
        i = listing::next_head(survey, next);
    }
    Ok(i)
}

// ROUTER_CS_1 of the device whose head stands at a place, if it is a router whose registers were read.
fn router_cs_1(descriptions: &[u32], survey: &[u32], at: usize) -> Option<NamedAt>
    requires { at + 4 ≤ length survey.now }
    ensures answer { named_at descriptions.now survey.now result ≡ router_cs1 (descriptions_of descriptions.now) (device_at survey.now at) }
    ensures within { Within (length survey.now) result }
{
    let w = layout::word_at(survey, at);
    if w / 16777216 % 16 != 1 {
        return None;
    }
    if w / 2 % 2 != 1 {
        return None;
    }
    named::by_name(
        descriptions,
        survey,
        at + 4,
        Space::Router as u32,
        0,
        b"ROUTER_CS_1",
    )
}

// The upstream adapter by ROUTER_CS_1.
fn upstream_of(
    descriptions: &[u32],
    survey: &[u32],
    cs1: Option<NamedAt>,
) -> Result<Option<u8>, FieldError>
    requires { Within (length survey.now) cs1 }
    ensures { (p : ℕ) → field_at (adapter_site p 0) result ≡ upstream_in p (named_at descriptions.now survey.now cs1) }
{
    let Some(NamedAt { register, group }) = cs1 else {
        return Ok(None);
    };
    let value = layout::word_at(survey, register + 3);
    let Ok(up) = named::field_value(descriptions, group, value, b"Upstream Adapter") else {
        return Err(FieldError::NoField);
    };
    Ok(Some((up % 256) as u8))
}

// Whether the adapters from a place on fit the device at a place: 7 for kind or name, 6 for Max then Upstream Adapter, 7 for the numbers.
fn fits_router(
    descriptions: &[u32],
    survey: &[u32],
    from: usize,
    place: usize,
    cs1: Option<NamedAt>,
) -> Result<(), Fault>
    requires { Within (length survey.now) cs1 }
    ensures { fault_outcome result ≡ fitting place (after survey.now from).adapters (named_at descriptions.now survey.now cs1) }
{
    let Some(NamedAt { register, group }) = cs1 else {
        return Err(Fault::BadAdapters(place));
    };
    let site = Site { place, adapter: 0 };
    let value = layout::word_at(survey, register + 3);
    let Ok(most) = named::field_value(descriptions, group, value, b"Max Adapter") else {
        return Err(Fault::NoField(site));
    };
    let Ok(_) = named::field_value(descriptions, group, value, b"Upstream Adapter") else {
        return Err(Fault::NoField(site));
    };
    if !numbering::numbered_to(survey, from, most) {
        return Err(Fault::BadAdapters(place));
    }
    Ok(())
}

// Whether a device that has adapters from a place on fits them; one that has none does.
fn fits_device(
    descriptions: &[u32],
    survey: &[u32],
    from: usize,
    place: usize,
    cs1: Option<NamedAt>,
) -> Result<(), Fault>
    requires { Within (length survey.now) cs1 }
    ensures { fault_outcome result ≡ fits_by place (after survey.now from).adapters (named_at descriptions.now survey.now cs1) }
{
    let i = listing::next_head(survey, from);
    if survey.len() <= i {
        return Ok(());
    }
    if survey[i] / 268435456 % 16 != 4 {
        return Ok(());
    }
    fits_router(descriptions, survey, from, place, cs1)
}

// The device whose head stands at a place: 5; whether its adapters fit; then each adapter. Answers where the next device stands.
#[inline(always)]
fn load_device(
    descriptions: &[u32],
    survey: &[u32],
    at: usize,
    rows: &mut LoadedRows,
) -> Result<usize, Fault>
    requires { Room survey.now at rows.old × (at + 4 ≤ length survey.now) }
    ensures rows { answered (fault_outcome result) rows.new ≡ and_then (value rows.old) (load_device (descriptions_of descriptions.now) (length rows.old.devices) (device_at survey.now at)) }
    ensures within { IfOk result (λ next. ToDevice survey.now (at + 4) rows.new next) }
{
    let place = rows.counts().devices;
    let w = layout::word_at(survey, at);
    if w / 2 % 2 == 1 {
        if survey.len() <= listing::next_register(survey, at + 4, false) {
            return Err(Fault::FewRegisters(Site { place, adapter: 0 }));
        }
    }
    let cs1 = router_cs_1(descriptions, survey, at);
    fits_device(descriptions, survey, at + 4, place, cs1)?;
    let usb4 = w % 2 == 1;
    let low = layout::word_at(survey, at + 2) as u64;
    let high = layout::word_at(survey, at + 3) as u64;
    rows.put_device(DeviceFacts {
        kind: Kind::from(w / 16777216 % 16),
        usb4,
        domain: layout::word_at(survey, at + 1),
        route: low + high * 4294967296,
        upstream: upstream_of(descriptions, survey, cs1),
    });
    load_adapters(descriptions, survey, at + 4, usb4, place, rows)
}

// All devices, one after another.
#[inline(always)]
fn fill(descriptions: &[u32], survey: &[u32], rows: &mut LoadedRows) -> Result<(), Fault>
    requires { length survey.now ≤ 16384 }
    ensures { answered (fault_outcome result) rows.new ≡ load_from (descriptions_of descriptions.now) 0 (devices_of survey.now) }
{
    rows.clear();
    let mut i = listing::next_head(survey, 0);
    while i < survey.len() {
        if survey[i] / 268435456 % 16 == 4 {
            i = listing::next_head(survey, i + 1);
        } else {
            i = load_device(descriptions, survey, i, rows)?;
        }
    }
    Ok(())
}

// 3, then 4, then loading.
// It is taken into `accept`, of whose rows nothing but their number is then left: 3 us where it is 7.5, a survey of 101 words.
#[inline(always)]
#[tactic(auto, unfolding(crate::specs::Loading::loaded, description::specs::Rules::read_descriptions), using(refusal::proofs::Laws::refused_bind))]
fn load_into(descriptions: &[u32], survey: &[u32], rows: &mut LoadedRows) -> Result<(), Refusal>
    ensures { answered (outcome result) rows.new ≡ loaded descriptions.now survey.now }
{
    description::check(descriptions)?;
    wellformed::check(survey)?;
    Ok(fill(descriptions, survey, rows)?)
}

// A survey, loaded: every fault of loading is met here, in document 01's order, and nothing is looked up by name afterwards.
// Descriptions and survey stay two parameters, here and in the calls on a survey: as one struct they would be taken apart again at nearly each call, since most of what reads them takes one of the two.
pub fn load(descriptions: &[u32], survey: &[u32]) -> Loaded
    ensures { result ≡ loaded descriptions.now survey.now }
{
    let mut loaded = Loaded::none();
    loaded.load(descriptions, survey);
    loaded
}

// How many rows of each kind a survey loads to, or why it is refused.
pub fn accept(descriptions: &[u32], survey: &[u32]) -> Result<Counts, Refusal>
    ensures { outcome result ≡ bind (loaded descriptions.now survey.now) (λ x. value (counts_of x)) }
{
    let mut rows = LoadedRows::none();
    load_into(descriptions, survey, &mut rows)?;
    Ok(rows.counts())
}
