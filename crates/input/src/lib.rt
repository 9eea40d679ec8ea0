// A program's buffers, and reading its input into them.
#![tactic(auto)]

ghost use Rattle.std.specs.Prelude.{◌<◌, ◌≤◌, ◌≡◌, length, take, IfOk};
ghost use Rattle.input.specs.Room.{zeros};
ghost use Rattle.std.specs.Io.KnownBytes.{Consumes, IsAtEnd};

use std::io;
use std::io::Read;

// A buffer that is lent as a slice: the length is what this wants.
#[tactic(auto, unfolding(crate::specs::Room::zeros))]
pub fn room<const N: usize>() -> [u8; N]
    ensures length { N ≡ length result }
    ensures zeros { result ≡ zeros N }
{
    [0; N]
}

// Reads until `text` is full or the input ends, and says how many bytes it put at the start of `text`. When reading fails is the reader's. So is what stands behind those bytes, and where reading fails all of `text` and how much the reader gave: `read` of the library promises nothing of it.
pub fn read_full<R: Read>(from: &mut R, text: &mut [u8]) -> io::Result<usize>
    ensures within { IfOk result (λ n. n ≤ length text.new) }
    ensures bytes { IfOk result (λ n. Consumes (R.remaining from.old) (R.remaining from.new) (take n text.new)) }
    ensures end { IfOk result (λ n. n < length text.new → IsAtEnd (R.remaining from.new)) }
{
    let mut n = 0;
    while n < text.len() {
        let more = from.read(&mut text[n..])?;
        if more == 0 {
            return Ok(n);
        }
        n += more;
    }
    Ok(n)
}
