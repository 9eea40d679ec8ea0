// Puts texts and numbers into a buffer, as far as there is room: called once to learn how long a text is, and once to write it.
#![tactic(auto)]

ghost use Rattle.std.specs.Prelude.{[], ◌∷◌};
ghost use Rattle.print.specs.Print.{decimal, Puts};

// Puts a byte at a place, if the buffer has it; the next place.
fn put_byte(out: &mut [u8], at: usize, b: u8) -> usize
    ensures { Puts out.old at (b ∷ []) result out.new }
{
    if at < out.len() {
        out[at] = b;
    }
    if at < 18446744073709551615 {
        return at + 1;
    }
    at
}

// Puts a text at a place; the place after it.
pub fn put_text(out: &mut [u8], at: usize, text: &[u8]) -> usize
    ensures { Puts out.old at text.now result out.new }
{
    let mut next = at;
    for &b in text {
        next = put_byte(out, next, b);
    }
    next
}

// Puts a number in decimal at a place; the place after it.
pub fn put_number(out: &mut [u8], at: usize, n: u64) -> usize
    ensures { Puts out.old at (decimal n) result out.new }
{
    if n < 10 {
        return put_byte(out, at, 48 + n as u8);
    }
    let next = put_number(out, at, n / 10);
    put_byte(out, next, 48 + (n % 10) as u8)
}
