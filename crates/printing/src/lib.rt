// The lines of result words, as document 01 prints them.
#![tactic(auto)]

ghost use Rattle.std.specs.Prelude.{◌≡◌, drop, get_or};
ghost use Rattle.print.specs.Print.{Puts};
ghost use Rattle.printing.specs.Lines.{type_name, path_name, tunnel_line, path_line, hop_line, line_of};

// The word that stands `k` words after place `i`, 0 past the end.
fn word_after(words: &[u32], i: usize, k: usize) -> u32
    ensures { result ≡ get_or (drop i words.now) k 0 }
{
    if words.len() <= i {
        return 0;
    }
    if words.len() - i <= k {
        return 0;
    }
    words[i + k]
}

// The name of the tunnel type of a number. The number is four bits of a word that may be any: where it is no type's, the name is empty.
#[tactic(auto, unfolding(util::specs::Text::bytes_of, crate::specs::Lines::type_name))]
fn type_name(n: u32) -> &'static [u8]
    ensures { result.now ≡ type_name n }
{
    match n {
        0 => b"USB 3",
        1 => b"DisplayPort",
        2 => b"PCIe",
        3 => b"DMA",
        _ => b"",
    }
}

// The name of the path of a number, which may be any too.
#[tactic(auto, unfolding(util::specs::Text::bytes_of, crate::specs::Lines::path_name))]
fn path_name(n: u32) -> &'static [u8]
    ensures { result.now ≡ path_name n }
{
    match n {
        0 => b"USB 3 Down",
        1 => b"USB 3 Up",
        2 => b"Video",
        3 => b"AUX TX",
        4 => b"AUX RX",
        5 => b"PCIe Down",
        6 => b"PCIe Up",
        7 => b"DMA TX",
        8 => b"DMA RX",
        _ => b"",
    }
}

// Puts a tunnel's line; `hop` is the head word of the first hop of its first path.
fn put_tunnel(out: &mut [u8], at: usize, w: u32, hop: u32) -> usize
    ensures { Puts out.old at (tunnel_line w hop) result out.new }
{
    let a = print::put_text(out, at, type_name(w % 16));
    let b = print::put_text(out, a, b" from ");
    let c = print::put_number(out, b, (hop / 65536 % 4096) as u64);
    let d = print::put_text(out, c, b":");
    let e = print::put_number(out, d, (hop / 256 % 256) as u64);
    let f = print::put_text(out, e, b" paths ");
    let g = print::put_number(out, f, (w / 256 % 256) as u64);
    if w / 65536 % 2 == 1 {
        return print::put_text(out, g, b" closed\n");
    }
    print::put_text(out, g, b" open\n")
}

// Puts a path's line.
fn put_path(out: &mut [u8], at: usize, w: u32) -> usize
    ensures { Puts out.old at (path_line w) result out.new }
{
    let a = print::put_text(out, at, path_name(w / 65536 % 16));
    let b = print::put_text(out, a, b" hops ");
    let c = print::put_number(out, b, (w % 65536) as u64);
    print::put_text(out, c, b"\n")
}

// Puts a hop's line; `ids` is its second word.
fn put_hop(out: &mut [u8], at: usize, w: u32, ids: u32) -> usize
    ensures { Puts out.old at (hop_line w ids) result out.new }
{
    let a = print::put_number(out, at, (w / 65536 % 4096) as u64);
    let b = print::put_text(out, a, b" ");
    let c = print::put_number(out, b, (w / 256 % 256) as u64);
    let d = print::put_text(out, c, b" ");
    let e = print::put_number(out, d, (ids / 65536) as u64);
    let f = print::put_text(out, e, b" ");
    let g = print::put_number(out, f, (w % 256) as u64);
    let h = print::put_text(out, g, b" ");
    let i = print::put_number(out, h, (ids % 65536) as u64);
    print::put_text(out, i, b"\n")
}

// Puts the line of the head at place `i` of result words; the place after it.
pub fn put_line(words: &[u32], i: usize, out: &mut [u8], at: usize) -> usize
    ensures { Puts out.old at (line_of (drop i words.now)) result out.new }
{
    let w = word_after(words, i, 0);
    let kind = w / 268435456;
    if kind == 8 {
        return put_tunnel(out, at, w, word_after(words, i, 2));
    }
    if kind == 9 {
        return put_path(out, at, w);
    }
    if kind == 10 {
        return put_hop(out, at, w, word_after(words, i, 1));
    }
    print::put_text(out, at, b"")
}
