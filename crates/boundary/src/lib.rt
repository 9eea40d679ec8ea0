// Where words that are not below a bound begin, in words that are in order. Any words will do: where they fall, it is some place where a word below the bound stands before one that isn't.
#![tactic(auto)]

ghost use Rattle.std.specs.Prelude.{◌≤◌, ◌<◌, length, get_or};
ghost use Rattle.tables.specs.Found.{Boundary};

// A place at or before which the words that are not below a bound begin: the 16th word, where it isn't below, else the end. In most surveys the host's entries and adapters stand first, and walks start there.
fn end_of(table: &[u64], bound: u64) -> usize
    ensures { (result ≤ length table.now) × (result < length table.now → bound ≤ get_or table.now result 0) }
{
    if table.len() < 16 {
        return table.len();
    }
    if bound <= table[15] {
        return 15;
    }
    table.len()
}

// Where the words that are not below a bound begin, in words that are in order. By hand, since `partition_point` of the library promises nothing of words in any other order, and this promises a boundary.
pub fn seek(table: &[u64], bound: u64) -> usize
    ensures { Boundary table.now bound result }
{
    let mut lo: usize = 0;
    let mut hi = end_of(table, bound);
    while lo < hi {
        let mid = (lo + hi) / 2;
        if table[mid] < bound {
            lo = mid + 1;
        } else {
            hi = mid;
        }
    }
    lo
}
