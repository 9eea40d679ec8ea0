// Stored answers, one case a line: what the programs that replay them share. A line is an input as hex pairs (`-` for none), then words of eight hex digits:
// `stored` reads that form alone, `line` any that `util::parse_hex` takes.
#![tactic(auto)]

mod line;
mod stored;
mod totals;

pub use line::{bytes, list, mark, words};
pub use stored::{after, input, listed, next};
pub use totals::{Compare, replay};
