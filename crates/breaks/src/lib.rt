// Words of a text: where one starts, where one ends, and where the last one ends.
#![tactic(auto)]

ghost use Rattle.std.specs.Prelude.{◌≡◌, ◌==◌, cond, ◌≤◌, length, take_while};
ghost use Rattle.breaks.specs.Words.{word_from, ends_word};
ghost use Rattle.breaks.specs.Steps.{last_behind};

// Whether a word ends directly before place e.
#[tactic(auto, unfolding(crate::specs::Words::ends_word))]
pub fn ends_word(text: &[u8], e: usize) -> bool
    requires { (1 ≤ e) × (e ≤ length text.now) }
    ensures { result ≡ ends_word text.now e }
{
    text[e - 1] != b' ' && (e == text.len() || text[e] == b' ')
}

// The last end of a word up to place e, where the last one before e is known.
pub fn last_end(text: &[u8], e: usize, last: usize) -> usize
    requires { (1 ≤ e) × (e ≤ length text.now) }
    ensures { result ≡ cond (ends_word text.now e) e last }
{
    if ends_word(text, e) {
        return e;
    }
    last
}

// How many blanks a text begins with.
fn leading_blanks(text: &[u8]) -> usize
    ensures { result ≡ length (take_while (λ b. b == 32) text.now) }
{
    text.iter().take_while(|b| **b == b' ').count()
}

// The first place from p on where a byte of a word stands; the text's end where there is none.
pub fn word_from(text: &[u8], p: usize) -> usize
    requires { p ≤ length text.now }
    ensures { result ≡ word_from text.now p }
{
    p + leading_blanks(&text[p..])
}

// The place behind the last word; 0 in a text without words.
pub fn last_behind(text: &[u8]) -> usize
    ensures { result ≡ last_behind text.now }
{
    for e in (0..text.len()).rev() {
        if text[e] != b' ' {
            return e + 1;
        }
    }
    0
}
