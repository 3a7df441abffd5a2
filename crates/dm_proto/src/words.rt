//! The words of a line.

ghost use Rattle.std.specs.Prelude.{◌≡◌, ◌≢◌, ◌==◌, ◌<◌, ◌≤◌, [], ◌∷◌, not, length, slice_index, position, MatchOption};
ghost use Rattle.std.specs.List.{position_or_len};
ghost use Rattle.std.specs.Str.Lines.{strip_carriage_return};
ghost use Rattle.dm_proto.specs.Words.{parts};

/// The text without one carriage return at its end.
pub fn without_return(line: &[u8]) -> &[u8]
    ensures { result.now ≡ strip_carriage_return line.now }
{
    match line {
        [front @ .., b'\r'] => front,
        _ => line,
    }
}

/// The first word of a text and what follows it.
pub fn next_word(text: &[u8]) -> Option<(&[u8], &[u8])>
    ensures { MatchOption result (parts text.now ≡ [])
        (λ found. parts text.now ≡ found.0.now ∷ parts found.1.now) }
{
    let text = without_spaces(text);
    if text.is_empty() {
        return None;
    }
    Some(text.split_at(word_len(text)))
}

// The text without the spaces at its front.
fn without_spaces(text: &[u8]) -> &[u8]
    ensures same { parts result.now ≡ parts text.now }
    ensures front { 0 < length result.now → slice_index result.now 0 ≢ 32 }
{
    text.split_at(spaces_len(text)).1
}

// How many spaces are at the front.
fn spaces_len(text: &[u8]) -> usize
    ensures place { result ≡ position_or_len (λ b. not (b == 32)) text.now }
    ensures fits { result ≤ length text.now }
{
    word_start(text).unwrap_or(text.len())
}

// How many bytes come before the first space.
fn word_len(text: &[u8]) -> usize
    ensures place { result ≡ position_or_len (λ b. b == 32) text.now }
    ensures fits { result ≤ length text.now }
{
    space(text).unwrap_or(text.len())
}

fn word_start(text: &[u8]) -> Option<usize>
    ensures { result ≡ position (λ b. not (b == 32)) text.now }
{
    text.iter().position(|b| *b != b' ')
}

fn space(text: &[u8]) -> Option<usize>
    ensures { result ≡ position (λ b. b == 32) text.now }
{
    text.iter().position(|b| *b == b' ')
}
