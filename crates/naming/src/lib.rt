// Which description names a register (module 4), over one list of description words.
#![tactic(auto)]

ghost use Rattle.std.specs.Prelude.{◌≡◌, ◌<◌, length};
ghost use Rattle.layout.specs.Layout.{has_cap, has_vs, cap_id, vs_id, listed, kinds};
ghost use Rattle.layout.specs.Description.{had, descriptions_of};
ghost use Rattle.naming.specs.Work.{candidate};
ghost use Rattle.naming.specs.Naming.{kind_fits, cap_fits, vs_fits, naming, router_naming, place_of};

// The spaces of registers, by their numbers in description words.
#[derive(Clone, Copy)]
pub enum Space {
    Router = 0,
    Adapter = 1,
    Path = 2,
}

// A register as it is looked up: its space, the number of the adapter's kind, its relative offset and ids. Any numbers may be asked for (the exported call on descriptions hands them on), so space and kind are no enums.
#[derive(Clone, Copy)]
pub struct Sought {
    pub space: u32,
    pub kind: u32,
    pub offset: u32,
    pub cap: u32,
    pub vs: u32,
}

// In adapter and path space: no type list, or one naming the kind.
fn kind_fits(space: u32, kind: u32, list: u32) -> bool
    ensures { result ≡ kind_fits space kind (had (listed list) (kinds list)) }
{
    if list / 4096 % 2 != 1 {
        return true;
    }
    if space == Space::Router as u32 {
        return true;
    }
    if 12 <= kind {
        return false;
    }
    ((list % 4096) >> kind) % 2 == 1
}

// Cap id 0: neither id is had. Not 0: the cap id is had and equal. w and ids are the group's first two words.
fn cap_fits(cap: u32, w: u32, ids: u32) -> bool
    ensures { result ≡ cap_fits cap (had (has_cap w) (cap_id ids)) (had (has_vs w) (vs_id ids)) }
{
    if cap == 0 {
        if w / 33554432 % 2 == 1 {
            return false;
        }
        if w / 16777216 % 2 == 1 {
            return false;
        }
        return true;
    }
    if w / 33554432 % 2 != 1 {
        return false;
    }
    ids / 65536 % 65536 == cap
}

// Vs id not 0: it is had and equal.
fn vs_fits(vs: u32, w: u32, ids: u32) -> bool
    ensures { result ≡ vs_fits vs (had (has_vs w) (vs_id ids)) }
{
    if vs == 0 {
        return true;
    }
    if w / 16777216 % 2 != 1 {
        return false;
    }
    ids % 65536 == vs
}

// Whether the group at i is a register that is left after the matching.
fn is_candidate(t: &[u32], i: usize, q: Sought) -> bool
    requires { i < length t.now }
    ensures { result ≡ candidate t.now q i }
{
    let w = layout::word_at(t, i);
    if w / 268435456 % 16 != 1 {
        return false;
    }
    if w / 67108864 % 4 != q.space {
        return false;
    }
    if w % 65536 != q.offset {
        return false;
    }
    if !kind_fits(q.space, q.kind, layout::word_at(t, i + 2)) {
        return false;
    }
    let ids = layout::word_at(t, i + 1);
    if !cap_fits(q.cap, w, ids) {
        return false;
    }
    vs_fits(q.vs, w, ids)
}

// The group that names a register: the only one that is left. One pass; the words need not be well formed.
pub fn find_group(descriptions: &[u32], q: Sought) -> Option<usize>
    ensures { result ≡ place_of (naming q (descriptions_of descriptions.now)) }
{
    let mut found = descriptions.len();
    let mut i: usize = 0;
    while i < descriptions.len() {
        if is_candidate(descriptions, i, q) {
            if found < descriptions.len() {
                return None;
            }
            found = i;
        }
        i += layout::group_size(layout::word_at(descriptions, i));
    }
    if found < descriptions.len() {
        Some(found)
    } else {
        None
    }
}

// The same for a register of a router.
pub fn find_router_group(descriptions: &[u32], offset: u32, cap: u32, vs: u32) -> Option<usize>
    ensures { result ≡ place_of (router_naming offset cap vs (descriptions_of descriptions.now)) }
{
    find_group(
        descriptions,
        Sought {
            space: Space::Router as u32,
            kind: 0, // plays no part there
            offset,
            cap,
            vs,
        },
    )
}
