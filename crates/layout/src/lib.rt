// Description words: where the parts of a group stand.
#![tactic(auto)]

ghost use Rattle.std.specs.Prelude.{◌≡◌, ◌<◌, ◌/◌, ◌%◌, ◌^◌};
ghost use Rattle.layout.specs.Layout.{word, name_words, byte_at, size_of};

// Word i, 0 past the end.
pub fn word_at(t: &[u32], i: usize) -> u32
    ensures { result ≡ word t.now i }
{
    if i < t.len() { t[i] } else { 0 }
}

// The words of a name of n bytes.
pub fn name_words(n: u32) -> usize
    ensures { result ≡ name_words n }
{
    (n / 4 + (n % 4 + 3) / 4) as usize
}

// The words of the group with head w.
pub fn group_size(w: u32) -> usize
    ensures { result ≡ size_of w }
{
    let kind = w / 268435456 % 16;
    if kind == 1 {
        return 3 + name_words(w / 65536 % 256);
    }
    if kind == 2 {
        return 1 + name_words(w / 256 % 256) + name_words(w % 256);
    }
    1
}

// Byte k of a word, low first.
fn byte_of(w: u32, k: usize) -> u32
    requires { k < 4 }
    ensures { result ≡ w / 256 ^ k % 256 }
{
    if k == 0 {
        return w % 256;
    }
    if k == 1 {
        return w / 256 % 256;
    }
    if k == 2 {
        return w / 65536 % 256;
    }
    w / 16777216 % 256
}

// Byte j of the name that stands at place p, 0 past the end.
pub fn byte_at(t: &[u32], p: usize, j: usize) -> u32
    ensures { result ≡ byte_at t.now p j }
{
    if t.len() <= p {
        return 0;
    }
    byte_of(word_at(t, p + j / 4), j % 4)
}
