// A line as words between blanks. A `#` begins a comment, which is no part of the line.
ghost use Rattle.std.specs.Prelude.{◌≡◌, ◌≤◌, length};
ghost use Rattle.std.specs.List.{prefix_len};
ghost use Rattle.std.specs.Str.{bytes_eq};
ghost use Rattle.reading.specs.Words.{blank, solid, no_comment, first_word, after_word, uncommented};

fn is_blank(byte: u8) -> bool
    ensures { result ≡ blank byte }
{
    // by `|`, which becomes one test of the byte; a match becomes a branch for each of the four
    (byte == b' ') | (byte == b'\t') | (byte == b'\r') | (byte == b'\n')
}

// How many bytes at the front are blank. By a loop, here and below: on lines that are read it took less time than counting
// what `take_while` gives.
#[tactic(auto, using(crate::proofs::Fronts::front_goes, crate::proofs::Fronts::front_stops, crate::proofs::Fronts::front_ends))]
fn blank_len(text: &[u8]) -> usize
    ensures value { result ≡ prefix_len blank text.now }
    ensures within { result ≤ length text.now }
{
    for (i, byte) in text.iter().enumerate() {
        if !is_blank(*byte) {
            return i;
        }
    }
    text.len()
}

// How many bytes at the front are not blank.
#[tactic(auto, using(crate::proofs::Fronts::front_goes, crate::proofs::Fronts::front_stops, crate::proofs::Fronts::front_ends))]
fn word_len(text: &[u8]) -> usize
    ensures value { result ≡ prefix_len solid text.now }
    ensures within { result ≤ length text.now }
{
    for (i, byte) in text.iter().enumerate() {
        if is_blank(*byte) {
            return i;
        }
    }
    text.len()
}

// How many bytes stand before a comment, or on the whole line.
#[tactic(auto, using(crate::proofs::Fronts::front_goes, crate::proofs::Fronts::front_stops, crate::proofs::Fronts::front_ends))]
fn text_len(line: &[u8]) -> usize
    ensures value { result ≡ prefix_len no_comment line.now }
    ensures within { result ≤ length line.now }
{
    for (i, byte) in line.iter().enumerate() {
        if *byte == b'#' {
            return i;
        }
    }
    line.len()
}

// The first word, and what stands after it; where there is no word, two empty texts.
pub fn split_word(text: &[u8]) -> (&[u8], &[u8])
    ensures word { result.0.now ≡ first_word text.now }
    ensures rest { result.1.now ≡ after_word text.now }
{
    let text = &text[blank_len(text)..];
    text.split_at(word_len(text))
}

// A line up to its comment.
pub fn before_comment(line: &[u8]) -> &[u8]
    ensures { result.now ≡ uncommented line.now }
{
    &line[..text_len(line)]
}

// Whether a word is the one given.
pub fn says(word: &[u8], text: &[u8]) -> bool
    ensures { result ≡ bytes_eq word.now text.now }
{
    word == text
}
