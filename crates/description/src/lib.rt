// Description words: the check of their rules (refusal 3).
#![tactic(auto)]

ghost use Rattle.std.specs.Prelude.{◌≡◌, ◌+◌, ◌<◌, ◌≤◌, length};
ghost use Rattle.description.specs.Rules.{good_byte, good_name, zero_unless, good_head, good_range, good_register, good_field, good_group, check_of};
ghost use Rattle.description.specs.Work.{good_word};
ghost use Rattle.refusal.specs.Refusal.{outcome};

use refusal::Refusal;

// A list of descriptions holds at most so many words.
pub const MAX_WORDS: usize = 16384;

// Byte j of a name of n bytes, or of its padding.
fn good_byte(n: u32, j: u32, b: u32) -> bool
    ensures { result ≡ good_byte n j b }
{
    if n <= j {
        return b == 0;
    }
    if b < 32 {
        return false;
    }
    b <= 126
}

// The four bytes of a word, which are those from byte j on of a name of n bytes.
#[tactic(auto, unfolding(crate::specs::Work::good_word))]
fn good_word(n: u32, j: u32, w: u32) -> bool
    requires { j < 256 }
    ensures { result ≡ good_word n j w }
{
    good_byte(n, j, w % 256)
        && good_byte(n, j + 1, w / 256 % 256)
        && good_byte(n, j + 2, w / 65536 % 256)
        && good_byte(n, j + 3, w / 16777216 % 256)
}

// A name of n bytes at place p, zero padded. Word by word, since a check is mostly this.
fn good_name(t: &[u32], p: usize, n: u32) -> bool
    requires { (n < 256) × (p ≤ length t.now + 64) }
    ensures { result ≡ good_name t.now p n }
{
    for k in 0..(n + 3) / 4 {
        if !good_word(n, 4 * k, layout::word_at(t, p + k as usize)) {
            return false;
        }
    }
    true
}

// What is not had is 0.
fn zero_unless(bit: u32, v: u32) -> bool
    ensures { result ≡ zero_unless bit v }
{
    if bit == 1 {
        return true;
    }
    v == 0
}

// The head word, the ids and the type list of a register.
fn good_head(w: u32, ids: u32, list: u32) -> bool
    ensures { result ≡ good_head w ids list }
{
    if 3 <= w / 67108864 % 4 {
        return false;
    }
    if w / 65536 % 256 < 1 {
        return false;
    }
    if 64 < w / 65536 % 256 {
        return false;
    }
    if !zero_unless(w / 33554432 % 2, ids / 65536 % 65536) {
        return false;
    }
    if !zero_unless(w / 16777216 % 2, ids % 65536) {
        return false;
    }
    if list / 8192 % 524288 != 0 {
        return false;
    }
    zero_unless(list / 4096 % 2, list % 4096)
}

// The head word of a field.
fn good_range(w: u32) -> bool
    ensures { result ≡ good_range w }
{
    if w / 65536 % 4 != 0 {
        return false;
    }
    if w / 262144 % 32 < w / 8388608 % 32 {
        return false;
    }
    if w / 256 % 256 < 1 {
        return false;
    }
    if 64 < w / 256 % 256 {
        return false;
    }
    w % 256 <= 64
}

fn good_register(t: &[u32], i: usize) -> bool
    requires { i < length t.now }
    ensures { result ≡ good_register t.now i }
{
    let w = layout::word_at(t, i);
    if !good_head(w, layout::word_at(t, i + 1), layout::word_at(t, i + 2)) {
        return false;
    }
    if t.len() < i + layout::group_size(w) {
        return false;
    }
    good_name(t, i + 3, w / 65536 % 256)
}

fn good_field(t: &[u32], i: usize) -> bool
    requires { i < length t.now }
    ensures { result ≡ good_field t.now i }
{
    let w = layout::word_at(t, i);
    if !good_range(w) {
        return false;
    }
    let end = i + layout::group_size(w);
    if t.len() < end {
        return false;
    }
    let n = w / 256 % 256;
    if !good_name(t, i + 1, n) {
        return false;
    }
    good_name(t, i + 1 + layout::name_words(n), w % 256)
}

// A register, or a field that is not the first group.
fn good_group(t: &[u32], i: usize) -> bool
    requires { i < length t.now }
    ensures { result ≡ good_group t.now i }
{
    let kind = layout::word_at(t, i) / 268435456 % 16;
    if kind == 1 {
        return good_register(t, i);
    }
    if kind != 2 {
        return false;
    }
    if i < 1 {
        return false;
    }
    good_field(t, i)
}

// Whether the words are well formed; refused (3) with 16,384 if they are too many, else with the head place of the first group that breaks the rules.
pub fn check(descriptions: &[u32]) -> Result<(), Refusal>
    ensures { outcome result ≡ check_of descriptions.now }
{
    if MAX_WORDS < descriptions.len() {
        return Err(Refusal::Descriptions(MAX_WORDS));
    }
    let mut i: usize = 0;
    while i < descriptions.len() {
        if !good_group(descriptions, i) {
            return Err(Refusal::Descriptions(i));
        }
        i += layout::group_size(layout::word_at(descriptions, i));
    }
    Ok(())
}
