//! The words of a line by their places, and single bytes and words compared. Each word is a slice
//! of its line.
ghost use Rattle.std.specs.Prelude.{◌≡◌, ◌<◌, ◌≤◌, ◌∷◌, [], false, length, drop, slice_index, slice_range, MatchOption};
ghost use Rattle.jd_text.specs.Words.{is_separator, is_text, words_of};
ghost use Rattle.jd_text.specs.Places.{words_at, IsWordTo};

/// Whether a byte stands between words.
pub fn is_separator(b: u8) -> bool
    ensures { result ≡ is_separator b }
{
    b == b' ' || b == b'\t' || b == b'\r'
}

/// Whether a word is this text.
pub fn is_text(text: &[u8], word: &[u8]) -> bool
    ensures { result ≡ is_text text.now word.now }
{
    text == word
}

/// The first place from one on that no separator holds.
pub fn skip_separators(text: &[u8], at: usize) -> usize
    requires { at ≤ length text.now }
    ensures same { words_of (drop result text.now) ≡ words_of (drop at text.now) }
    ensures from { at ≤ result }
    ensures within { result ≤ length text.now }
    ensures stops { result < length text.now → is_separator (slice_index text.now result) ≡ false }
{
    let mut i = at;
    while i < text.len() {
        if !is_separator(text[i]) {
            return i;
        }
        i += 1;
    }
    i
}

/// The end of the word that begins at a place.
fn word_end(text: &[u8], at: usize) -> usize
    requires within { at < length text.now }
    requires begins { is_separator (slice_index text.now at) ≡ false }
    ensures word { words_of (drop at text.now) ≡ slice_range text.now at result ∷ words_of (drop result text.now) }
    ensures after { at < result }
    ensures ends { result ≤ length text.now }
{
    let mut i = at + 1;
    while i < text.len() {
        if is_separator(text[i]) {
            return i;
        }
        i += 1;
    }
    i
}

/// The next word of a line from a place on, and where it ends. None where no word is left.
pub fn next_word(line: &[u8], at: usize) -> Option<(&[u8], usize)>
    requires { at ≤ length line.now }
    ensures { MatchOption result (words_at line.now at ≡ []) (λ r. IsWordTo line.now at r.0.now r.1) }
{
    let from = skip_separators(line, at);
    if from == line.len() {
        return None;
    }
    let end = word_end(line, from);
    Some((&line[from..end], end))
}
