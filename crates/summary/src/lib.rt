// What the program prints first, into a lent buffer: the number of tunnels, or a refusal and nothing more.
#![tactic(auto)]

ghost use Rattle.std.specs.Prelude.{◌++◌};
ghost use Rattle.util.specs.Text.{bytes_of};
ghost use Rattle.print.specs.Print.{decimal, Puts};
ghost use Rattle.printed.specs.Printed.{total_line, refused_line, PrintDone};

use refusal::Refusal;

// Puts a word and a number as a line.
fn put_numbered(text: &[u8], n: u64, out: &mut [u8]) -> usize
    ensures { Puts out.old 0 (text.now ++ decimal n ++ bytes_of "\n") result out.new }
{
    let a = print::put_text(out, 0, text);
    let b = print::put_number(out, a, n);
    print::put_text(out, b, b"\n")
}

// A word and a number as a line. Written out as in printed::lines: one function for both, which is lent what puts the text, would be public and need a requires.
fn numbered(text: &[u8], n: u64, output: &mut [u8]) -> Result<usize, Refusal>
    ensures { PrintDone (text.now ++ decimal n ++ bytes_of "\n") output.old result output.new }
{
    let mut nowhere = [0u8; 1];
    let need = put_numbered(text, n, &mut nowhere);
    // No buffer holds a text that long, and longer ones are counted as that long.
    if need == usize::MAX {
        return Err(Refusal::Short(need));
    }
    if output.len() < need {
        return Err(Refusal::Short(need));
    }
    put_numbered(text, n, output);
    Ok(need)
}

// The first line: the number of tunnels. How many bytes, or the bytes needed (2).
pub fn total(tunnels: usize, output: &mut [u8]) -> Result<usize, Refusal>
    ensures { PrintDone (total_line tunnels) output.old result output.new }
{
    numbered(b"tunnels ", tunnels as u64, output)
}

// The only line where something is refused: its number. How many bytes, or the bytes needed (2).
pub fn refused(number: u8, output: &mut [u8]) -> Result<usize, Refusal>
    ensures { PrintDone (refused_line number) output.old result output.new }
{
    numbered(b"refused ", number as u64, output)
}
