//! The lines of a text, one at a time.
ghost use Rattle.std.specs.Prelude.{◌≡◌, ◌≢◌, ℕ, ◌+◌, ◌<◌, ◌∷◌, length, slice_index, MatchOption};
ghost use Rattle.std.specs.Str.Lines.{lines, strip_carriage_return};

// The place of the first newline.
fn newline_at(text: &[u8]) -> Option<usize>
    ensures { MatchOption result ((k : ℕ) → k < length text.now → slice_index text.now k ≢ 10)
        (λ i. (i < length text.now) × ((k : ℕ) → k < i → slice_index text.now k ≢ 10)
        × (slice_index text.now i ≡ 10)) }
{
    text.iter().position(|b| *b == b'\n')
}

// The line without a carriage return at its end.
fn stripped(line: &[u8]) -> &[u8]
    ensures { result.now ≡ strip_carriage_return line.now }
{
    line.strip_suffix(b"\r").unwrap_or(line)
}

/// The first line of a text, and the text after it.
pub fn first_line(text: &[u8]) -> (&[u8], &[u8])
    requires { 0 < length text.now }
    ensures lines { lines text.now ≡ result.0.now ∷ lines result.1.now }
    ensures shorter { length result.1.now < length text.now }
{
    match newline_at(text) {
        None => (text, &text[text.len()..]),
        Some(i) => (stripped(&text[..i]), &text[i + 1..]),
    }
}
