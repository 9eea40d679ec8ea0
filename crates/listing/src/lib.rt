// Registers and heads of survey words, one after another. The words need not be well formed.
#![tactic(auto)]

ghost use Rattle.std.specs.Prelude.{◌≡◌, take};
ghost use Rattle.listing.specs.After.{NextRegister, NextHead};

// Where the next register of the space stands, before the next head; the length where there is none.
pub fn next_register(survey: &[u32], from: usize, path: bool) -> usize
    ensures { NextRegister survey.now path from result }
{
    let mut i = from;
    // A register's group is passed by its 4 words, so the places are in no range.
    while i < survey.len() {
        let w = survey[i];
        let kind = w / 268435456 % 16;
        if kind == 5 {
            if survey.len() - i < 4 {
                return survey.len();
            }
            if (w / 65536 % 2 != 0) == path {
                return i;
            }
            i += 4;
        } else {
            if kind == 3 {
                return survey.len();
            }
            if kind == 4 {
                return survey.len();
            }
            i += 1;
        }
    }
    survey.len()
}

// Where the next adapter or device has its head; the length where there is none.
pub fn next_head(survey: &[u32], from: usize) -> usize
    ensures { NextHead survey.now from result }
{
    let mut i = from;
    // As above: 4 words or 1.
    while i < survey.len() {
        let kind = survey[i] / 268435456 % 16;
        if kind == 4 {
            return i;
        }
        if kind == 3 {
            if survey.len() < i + 4 {
                return survey.len();
            }
            return i;
        }
        if kind == 5 {
            i += 4;
        } else {
            i += 1;
        }
    }
    survey.len()
}

// The first n words, or all.
pub fn first_words(survey: &[u32], n: usize) -> &[u32]
    ensures { result.now ≡ take n survey.now }
{
    if survey.len() < n {
        return survey;
    }
    &survey[..n]
}
