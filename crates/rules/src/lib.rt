// The rules of survey words, group by group: the size of a group, and what may follow what.
#![tactic(auto)]

ghost use Rattle.std.specs.Prelude.{◌≡◌};
ghost use Rattle.survey.specs.Words.{size_of};
ghost use Rattle.survey.specs.Rules.{good_device, good_adapter, good_register, may_stand, step_of};

use survey::Under;

// The words of the group with head w: a device and a register have four, any other one.
pub fn group_size(w: u32) -> usize
    ensures { result ≡ size_of w }
{
    let kind = w / 268435456 % 16;
    if kind == 3 {
        return 4;
    }
    if kind == 5 {
        return 4;
    }
    1 // any other head
}

// A device's head word.
fn good_device(w: u32) -> bool
    ensures { result ≡ good_device w }
{
    let kind = w / 16777216 % 16;
    if 5 < kind {
        return false;
    }
    if w / 4 % 4194304 != 0 {
        return false;
    }
    if w / 2 % 2 == 0 {
        return true;
    }
    kind == 1
}

// An adapter's head word.
fn good_adapter(w: u32) -> bool
    ensures { result ≡ good_adapter w }
{
    if w % 256 < 1 {
        return false;
    }
    if 2 < w / 512 % 4 {
        return false;
    }
    w / 2048 % 131072 == 0
}

// A register's head word and vs id.
fn good_register(w: u32, vs: u32) -> bool
    ensures { result ≡ good_register w vs }
{
    if w / 131072 % 2048 != 0 {
        return false;
    }
    vs <= 65535
}

// Whether a register may stand here: its dump was read, adapter space before path space, offsets not falling in each.
fn may_stand(u: Under, path: u32, offset: u32) -> bool
    ensures { result ≡ may_stand u path offset }
{
    if path == 0 {
        if !u.registers {
            return false;
        }
        if u.listing {
            return false;
        }
        return u.least <= offset;
    }
    if !u.paths {
        return false;
    }
    if !u.listing {
        return true;
    }
    u.least <= offset
}

// What the group with this head word, and this word two behind it, leads to.
pub fn advance(u: Under, w: u32, vs: u32) -> Option<Under>
    ensures { result ≡ step_of u w vs }
{
    let kind = w / 268435456 % 16;
    if kind == 3 {
        if !good_device(w) {
            return None;
        }
        return Some(Under {
            begun: true,
            registers: w / 2 % 2 == 1,
            paths: false,
            listing: false,
            least: 0,
        });
    }
    if kind == 4 {
        if !u.begun {
            return None;
        }
        if !good_adapter(w) {
            return None;
        }
        return Some(Under {
            begun: true,
            registers: w / 256 % 2 == 1,
            paths: w / 512 % 4 == 1,
            listing: false,
            least: 0,
        });
    }
    if kind != 5 {
        return None;
    }
    if !good_register(w, vs) {
        return None;
    }
    let path = w / 65536 % 2;
    let offset = w % 65536;
    if !may_stand(u, path, offset) {
        return None;
    }
    Some(Under {
        begun: u.begun,
        registers: u.registers,
        paths: u.paths,
        listing: path == 1,
        least: offset,
    })
}
