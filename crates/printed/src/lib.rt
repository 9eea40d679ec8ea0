// What the program prints of result words, into a lent buffer: their lines; and how many tunnels they have.
#![tactic(auto)]

ghost use Rattle.std.specs.Prelude.{◌<◌, ◌≡◌, ◌∷◌, length, drop};
ghost use Rattle.print.specs.Print.{Puts};
ghost use Rattle.printed.specs.Printed.{parts_of, lines_of, tunnels_in, PrintDone};

use refusal::Refusal;

// The place of the head after the one at `i`.
fn next_head(words: &[u32], i: usize) -> usize
    requires { i < length words.now }
    ensures parts { parts_of (drop i words.now) ≡ drop i words.now ∷ parts_of (drop result words.now) }
    ensures onward { i < result }
{
    if words[i] / 268435456 != 10 {
        return i + 1;
    }
    if words.len() - i < 2 {
        return i + 1;
    }
    i + 2
}

// Puts the lines of result words at the front of a buffer, as far as there is room; how many bytes they have.
fn put_lines(words: &[u32], out: &mut [u8]) -> usize
    ensures { Puts out.old 0 (lines_of words.now) result out.new }
{
    let mut at: usize = 0;
    let mut i: usize = 0;
    while i < words.len() {
        at = printing::put_line(words, i, out, at);
        i = next_head(words, i);
    }
    at
}

// The lines of result words: how many bytes, or the bytes needed (2). On words that are no result each head has its line as far as it can be read.
pub fn lines(words: &[u32], output: &mut [u8]) -> Result<usize, Refusal>
    ensures { PrintDone (lines_of words.now) output.old result output.new }
{
    let mut nowhere = [0u8; 1];
    let need = put_lines(words, &mut nowhere);
    // No buffer holds a text that long, and longer ones are counted as that long.
    if need == usize::MAX {
        return Err(Refusal::Short(need));
    }
    if output.len() < need {
        return Err(Refusal::Short(need));
    }
    put_lines(words, output);
    Ok(need)
}

// How many tunnels result words have.
pub fn tunnels(words: &[u32]) -> usize
    ensures { result ≡ tunnels_in words.now }
{
    let mut n: usize = 0;
    let mut i: usize = 0;
    while i < words.len() {
        if words[i] / 268435456 == 8 {
            n += 1;
        }
        i = next_head(words, i);
    }
    n
}
