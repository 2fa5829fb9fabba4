//! Which word of a script a fault is about.
use krl_modes::Mode;
use krl_text::{SyntaxFault, first_line};

// The most bytes of a word that a sentence repeats.
const MAX_SHOWN: usize = 64;

// The line of this number, counted from 1.
fn line_of(text: &[u8], number: u64) -> Option<&[u8]> {
    let mut rest = text;
    for _ in 1..number {
        if rest.is_empty() {
            return None;
        }
        let (_, after) = first_line(rest);
        rest = after;
    }
    if rest.is_empty() {
        return None;
    }
    let (line, _) = first_line(rest);
    Some(line)
}

fn is_number(word: &[u8]) -> bool {
    match str::from_utf8(word) {
        Ok("END") | Ok("TOP") => true,
        Ok(digits) => digits.bytes().all(|byte| byte.is_ascii_digit())
            && digits.parse::<u64>().is_ok(),
        Err(_) => false,
    }
}

fn is_value(word: &[u8]) -> bool {
    match word.strip_prefix(b"x") {
        Some(digits) => {
            digits.len() <= 64
                && digits.len() % 2 == 0
                && digits.iter().all(|byte| byte.is_ascii_hexdigit())
        }
        None => is_number(word),
    }
}

fn is_pair(word: &[u8]) -> bool {
    match word.iter().position(|byte| *byte == b'=') {
        Some(at) => is_number(&word[..at]) && is_value(&word[at + 1..]),
        None => false,
    }
}

fn is_mode(word: &[u8]) -> bool {
    Mode::from_name(word).is_some()
}

// Whether the fault may be about the argument in this place, counted from 1.
fn is_wrong(what: SyntaxFault, place: usize, word: &[u8]) -> bool {
    match what {
        SyntaxFault::BadNumber => !is_number(word) && !is_mode(word),
        SyntaxFault::BadPair => !is_pair(word),
        SyntaxFault::BadMode | SyntaxFault::BadValue => place == 3,
        _ => false,
    }
}

// The word that the fault is about, among those of its line.
fn wrong_word(line: &[u8], what: SyntaxFault) -> Option<&[u8]> {
    let is_first = matches!(what, SyntaxFault::UnknownWord | SyntaxFault::LateSeed);
    let mut place = 0usize;
    for word in line.split(|byte| *byte == b' ') {
        if word.is_empty() {
            continue;
        }
        if place == 0 && is_first || place > 0 && is_wrong(what, place, word) {
            return Some(word);
        }
        place = place.saturating_add(1);
    }
    None
}

/// The word of the script that the fault in this line is about, if there is one that a sentence
/// can repeat.
pub fn word_of(text: &[u8], line: u64, what: SyntaxFault) -> Option<&str> {
    let word = wrong_word(line_of(text, line)?, what)?;
    let is_plain = word.len() <= MAX_SHOWN && word.iter().all(|byte| byte.is_ascii_graphic());
    if is_plain {
        str::from_utf8(word).ok()
    } else {
        None
    }
}
