// Markers of the program's text.
#![tactic(auto)]

ghost use Rattle.std.specs.Prelude.{◌≡◌};
ghost use Rattle.markers.specs.Markers.{same, plain_marker, adapter_marker, device_marker, marker_of, marker_by};

use util::{MAX_16, MAX_32, MAX_64};

// What a marker says.
#[derive(Clone, Copy)]
pub enum Mark {
    Router { domain: u32, route: u64 },
    Xdomain { domain: u32, route: u64 },
    Usb4,
    Regs,
    Adapter(u8),
    Paths,
    NoPaths,
    Bad,
}

// Whether two texts are the same. It takes each marker as a slice: `==` wants `.as_slice()` beside an array, and a `match` on texts is proved byte by byte, in 51 goals.
fn is_text(a: &[u8], b: &[u8]) -> bool
    ensures { result ≡ same a.now b.now }
{
    a == b
}

// A marker of one token.
fn plain(t: &[u8]) -> Mark
    ensures { marker_by result ≡ plain_marker t.now }
{
    if is_text(t, b"@usb4") {
        return Mark::Usb4;
    }
    if is_text(t, b"@regs") {
        return Mark::Regs;
    }
    if is_text(t, b"@paths") {
        return Mark::Paths;
    }
    if is_text(t, b"@nopaths") {
        return Mark::NoPaths;
    }
    Mark::Bad
}

// A marker of two tokens: `@adapter` and a number from 1 to 255.
fn adapter(t: &[u8], n: &[u8]) -> Mark
    ensures { marker_by result ≡ adapter_marker t.now n.now }
{
    if !is_text(t, b"@adapter") {
        return Mark::Bad;
    }
    let Some(number) = util::parse_decimal(n, MAX_16) else {
        return Mark::Bad;
    };
    if number < 1 {
        return Mark::Bad;
    }
    if 255 < number {
        return Mark::Bad;
    }
    Mark::Adapter(number as u8)
}

// A marker of three tokens: `@router` or `@xdomain`, then domain and route.
fn device(t: &[u8], d: &[u8], r: &[u8]) -> Mark
    ensures { marker_by result ≡ device_marker t.now d.now r.now }
{
    let Some(domain) = util::parse_decimal(d, MAX_32) else {
        return Mark::Bad;
    };
    let Some(route) = util::parse_hex(r, MAX_64) else {
        return Mark::Bad;
    };
    let domain = domain as u32;
    if is_text(t, b"@router") {
        return Mark::Router { domain, route };
    }
    if is_text(t, b"@xdomain") {
        return Mark::Xdomain { domain, route };
    }
    Mark::Bad
}

// What a line whose first byte is `@` says as a marker.
pub fn marker(line: &[u8]) -> Mark
    ensures { marker_by result ≡ marker_of line.now }
{
    let a = scan::token(line, 0);
    let b = scan::token(line, a.end);
    let c = scan::token(line, b.end);
    let d = scan::token(line, c.end);
    if a.text.is_empty() {
        return Mark::Bad;
    }
    if !d.text.is_empty() {
        return Mark::Bad;
    }
    if b.text.is_empty() {
        return plain(a.text);
    }
    if c.text.is_empty() {
        return adapter(a.text, b.text);
    }
    device(a.text, b.text, c.text)
}
