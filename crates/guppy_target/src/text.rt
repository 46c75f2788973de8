//! What stands at the front of a text: a word, a quoted text or a mark, behind spaces.
ghost use Rattle.std.specs.Prelude.{◌≡◌, ◌<◌, ◌≤◌, ◌==◌, not, length, position, option_map, IfSome};
ghost use Rattle.std.specs.List.{position_or_len};
ghost use Rattle.std.specs.Str.{byte};
ghost use Rattle.guppy_target.specs.Grammar.{starts_word, is_of_word};
ghost use Rattle.guppy_target.specs.Reading.{after_spaces, mark_at, split_word, word_at, quoted_behind, quoted_at};

fn is_of_word(byte: u8) -> bool
    ensures { result ≡ is_of_word byte }
{
    byte.is_ascii_alphanumeric() || byte == b'_'
}

pub(crate) fn after_spaces(text: &[u8]) -> &[u8]
    ensures rest { result.now ≡ after_spaces text.now }
    ensures shorter { length result.now ≤ length text.now }
{
    let mut rest = text;
    while let [b' ', behind @ ..] = rest {
        rest = behind;
    }
    rest
}

// What is behind the mark, where it is first.
#[tactic(auto, unfolding(crate::specs::Reading::mark_at))]
pub(crate) fn mark_at(mark: u8, text: &[u8]) -> Option<&[u8]>
    ensures read { option_map (λ x. x.now) result ≡ mark_at mark text.now }
    ensures shorter { IfSome result (λ x. length x.now < length text.now) }
{
    match after_spaces(text) {
        [first, rest @ ..] if *first == mark => Some(rest),
        _ => None,
    }
}

// Where the word at the front of a text ends, if not with the text.
fn word_end(text: &[u8]) -> Option<usize>
    ensures { result ≡ position (λ c. not (is_of_word c)) text.now }
{
    text.iter().position(|byte| !is_of_word(*byte))
}

// How long it is.
fn word_len(text: &[u8]) -> usize
    ensures len { result ≡ position_or_len (λ c. not (is_of_word c)) text.now }
    ensures bound { result ≤ length text.now }
{
    match word_end(text) {
        Some(len) => len,
        None => text.len(),
    }
}

// The longest word at the front of a text that begins one, and what is behind it.
fn split_word(text: &[u8]) -> (&[u8], &[u8])
    ensures { (result.0.now, result.1.now) ≡ split_word text.now }
{
    text.split_at(word_len(text))
}

fn starts_word(byte: u8) -> bool
    ensures { result ≡ starts_word byte }
{
    byte.is_ascii_alphabetic() || byte == b'_'
}

// The word that is first, and what is behind it.
#[tactic(auto, unfolding(crate::specs::Reading::word_at))]
pub(crate) fn word_at(text: &[u8]) -> Option<(&[u8], &[u8])>
    ensures { option_map (λ x. (x.0.now, x.1.now)) result ≡ word_at text.now }
{
    match after_spaces(text) {
        [] => None,
        text => if starts_word(text[0]) {
            Some(split_word(text))
        } else {
            None
        }
    }
}

// Where the first quote is.
fn quote_at(text: &[u8]) -> Option<usize>
    ensures place { result ≡ position (λ c. c == byte "\"") text.now }
    ensures bound { IfSome result (λ n. n < length text.now) }
{
    text.iter().position(|byte| *byte == b'"')
}

// The text up to a quote, and what is behind that.
fn quoted_behind(text: &[u8]) -> Option<(&[u8], &[u8])>
    ensures { option_map (λ x. (x.0.now, x.1.now)) result ≡ quoted_behind text.now }
{
    let end = quote_at(text)?;
    Some((text.split_at(end).0, text.split_at(end + 1).1))
}

// The text between quotes that is first, and what is behind it.
#[tactic(auto, unfolding(crate::specs::Reading::quoted_at))]
pub(crate) fn quoted_at(text: &[u8]) -> Option<(&[u8], &[u8])>
    ensures { option_map (λ x. (x.0.now, x.1.now)) result ≡ quoted_at text.now }
{
    let text = mark_at(b'"', text)?;
    quoted_behind(text)
}
