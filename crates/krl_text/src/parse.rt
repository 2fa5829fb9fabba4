//! From a line to what it asks for.
ghost use Rattle.std.specs.Prelude.{◌≡◌, ℕ, ◌+◌, ◌<◌, ◌≤◌, ◌^◌, List, [], map, length, IfOk, OnOk};
ghost use Rattle.std.specs.Prelude.{IfSome, nat_eq, position};
ghost use Rattle.std.specs.List.{slice_split};
ghost use Rattle.std.specs.Str.{bytes_eq};
ghost use Rattle.krl_text.specs.Words.{Gives, words_of, digits_of, number_of, bytes_of, value_of};
ghost use Rattle.krl_text.specs.Words.{pair_of, pairs_of, mode_of, argument_count, argument};
ghost use Rattle.krl_text.specs.Words.{or_fault, one_number_of, client_and_number_of};
ghost use Rattle.krl_text.specs.Words.{client_and_two_of, valued_of, seed_of, lock_of, lower_of};
ghost use Rattle.krl_text.specs.Words.{argument_count_within, reach_of, crash_of, start_of};
ghost use Rattle.krl_text.specs.Words.{take_of, taken_of};
ghost use Rattle.krl_text.specs.Words.{request_of, meaning_of_words, meaning_of};

use crate::fault::{LineFault, SyntaxFault};
use crate::request::{Entries, Request};
use crate::word::{ClientAndNumber, Word};
use krl_messages::{Value, WriteOp};
use krl_modes::{END, Mode, TOP};
use krl_steps::{Command, Step};
use std::alloc::{AllocError, Global};

fn is_text(word: &[u8], text: &str) -> bool
    ensures { result ≡ bytes_eq word.now text.now }
{
    word == text.as_bytes()
}

// What stands between spaces, and is not empty.
fn words(alloc: Global, line: &[u8]) -> Result<Vec<&[u8]>, AllocError>
    ensures { IfOk result (λ words. map (λ word. word.now) words.items ≡ words_of line.now) }
{
    line.split(|b| *b == b' ')
        .filter(|part| !part.is_empty())
        .collect(alloc)
}

fn digits(word: &[u8]) -> Option<u64>
    ensures { result ≡ digits_of word.now }
{
    if word.is_empty() || word.len() > 20 {
        return None;
    }
    let mut value = 0u64;
    for b in word {
        if !b.is_ascii_digit() {
            return None;
        }
        let digit = u64::from(*b - b'0');
        value = value.checked_mul(10)?.checked_add(digit)?;
    }
    Some(value)
}

fn number(word: &[u8]) -> Option<u64>
    ensures { result ≡ number_of word.now }
{
    if is_text(word, "END") {
        Some(END)
    } else if is_text(word, "TOP") {
        Some(TOP)
    } else {
        digits(word)
    }
}

// The place of the first '='.
fn equals_at(word: &[u8]) -> Option<usize>
    ensures value { result ≡ position (λ b. nat_eq b 61) word.now }
    ensures inside { IfSome result (λ i. i < length word.now) }
{
    word.iter().position(|b| *b == b'=')
}

// The bytes that an even number of hexadecimal digits spell.
fn bytes(digits: &[u8]) -> Option<Value>
    ensures { result ≡ bytes_of digits.now }
{
    if digits.len() > 64 {
        return None;
    }
    let len = digits.len() / 2;
    let mut bytes = [0; 32];
    let room = &mut bytes[..len];
    hex::decode_to_slice(digits, room).ok()?;
    Value::new(&bytes[..len])
}

fn value(word: &[u8]) -> Option<Value>
    ensures { result ≡ value_of word.now }
{
    match word.split_first() {
        None => None,
        Some((b'x', digits)) => bytes(digits),
        Some(_) => Some(Value::from_u64(number(word)?)),
    }
}

// No key and no value has an '=' in it, so a pair has exactly one.
fn pair(word: &[u8]) -> Option<(u64, Value)>
    ensures { result ≡ pair_of word.now }
{
    let at = equals_at(word)?;
    let key = number(&word[..at])?;
    let value = value(&word[at + 1..])?;
    Some((key, value))
}

fn pairs(alloc: Global, arguments: &[&[u8]]) -> Result<Entries, LineFault>
    ensures { Gives result (pairs_of (map (λ word. word.now) arguments.now)) }
{
    let mut entries = Vec::new(alloc);
    for word in arguments {
        let entry = pair(word).ok_or(LineFault::Syntax(SyntaxFault::BadPair))?;
        entries.push(entry)?;
    }
    Ok(Entries::from(entries))
}

fn mode(word: &[u8]) -> Result<Mode, LineFault>
    ensures { Gives result (mode_of word.now) }
{
    Mode::from_name(word).ok_or(LineFault::Syntax(SyntaxFault::BadMode))
}

fn count(n: usize, arguments: &[&[u8]]) -> Result<(), LineFault>
    ensures said { Gives result (argument_count n (map (λ word. word.now) arguments.now)) }
    ensures exact { OnOk result (length arguments.now ≡ n) }
{
    if arguments.len() < n {
        Err(LineFault::Syntax(SyntaxFault::MissingArgument))
    } else if arguments.len() > n {
        Err(LineFault::Syntax(SyntaxFault::ExtraArgument))
    } else {
        Ok(())
    }
}

fn count_within(few: usize, most: usize, arguments: &[&[u8]]) -> Result<(), LineFault>
    ensures said { Gives result
        (argument_count_within few most (map (λ word. word.now) arguments.now)) }
    ensures some { OnOk result (few ≤ length arguments.now) }
{
    if arguments.len() < few {
        Err(LineFault::Syntax(SyntaxFault::MissingArgument))
    } else if arguments.len() > most {
        Err(LineFault::Syntax(SyntaxFault::ExtraArgument))
    } else {
        Ok(())
    }
}

fn number_at(arguments: &[&[u8]], i: usize) -> Result<u64, LineFault>
    requires { i < length arguments.now }
    ensures { Gives result (or_fault SyntaxFault.BadNumber
        (number_of (argument (map (λ word. word.now) arguments.now) i))) }
{
    number(arguments[i]).ok_or(LineFault::Syntax(SyntaxFault::BadNumber))
}

fn mode_at(arguments: &[&[u8]], i: usize) -> Result<Mode, LineFault>
    requires { i < length arguments.now }
    ensures { Gives result (mode_of (argument (map (λ word. word.now) arguments.now) i)) }
{
    mode(arguments[i])
}

// The one number that a word takes.
fn one_number(arguments: &[&[u8]]) -> Result<u64, LineFault>
    ensures { Gives result (one_number_of (map (λ word. word.now) arguments.now)) }
{
    count(1, arguments)?;
    number_at(arguments, 0)
}

// The two numbers that a word takes.
fn client_and_number(arguments: &[&[u8]]) -> Result<(u64, u64), LineFault>
    ensures { Gives result (client_and_number_of (map (λ word. word.now) arguments.now)) }
{
    count(2, arguments)?;
    let first = number_at(arguments, 0)?;
    let second = number_at(arguments, 1)?;
    Ok((first, second))
}

// The three numbers that a word takes.
fn client_and_two(arguments: &[&[u8]]) -> Result<(u64, u64, u64), LineFault>
    ensures { Gives result (client_and_two_of (map (λ word. word.now) arguments.now)) }
{
    count(3, arguments)?;
    let first = number_at(arguments, 0)?;
    let second = number_at(arguments, 1)?;
    let third = number_at(arguments, 2)?;
    Ok((first, second, third))
}

// A client, a key and a value.
fn valued(arguments: &[&[u8]]) -> Result<(u64, u64, Value), LineFault>
    ensures { Gives result (valued_of (map (λ word. word.now) arguments.now)) }
{
    count(3, arguments)?;
    let client = number_at(arguments, 0)?;
    let key = number_at(arguments, 1)?;
    let value = value(arguments[2]).ok_or(LineFault::Syntax(SyntaxFault::BadValue))?;
    Ok((client, key, value))
}

fn seed(alloc: Global, arguments: &[&[u8]]) -> Result<Request, LineFault>
    ensures { Gives result (seed_of (map (λ word. word.now) arguments.now)) }
{
    if arguments.is_empty() {
        return Err(LineFault::Syntax(SyntaxFault::MissingArgument));
    }
    let entries = pairs(alloc, arguments)?;
    Ok(Request::Seed(entries))
}

// How far a lock is asked for: to where the fourth argument states, or one past its point. Past the
// last point there is none, and such a lock is refused for its point.
fn reach(point: u64, arguments: &[&[u8]]) -> Result<u64, LineFault>
    ensures { Gives result (reach_of point (map (λ word. word.now) arguments.now)) }
{
    if arguments.len() > 3 {
        number_at(arguments, 3)
    } else {
        Ok(point.saturating_add(1))
    }
}

fn lock(arguments: &[&[u8]]) -> Result<Request, LineFault>
    ensures { Gives result (lock_of (map (λ word. word.now) arguments.now)) }
{
    count_within(3, 4, arguments)?;
    let client = number_at(arguments, 0)?;
    let point = number_at(arguments, 1)?;
    let mode = mode_at(arguments, 2)?;
    let hi = reach(point, arguments)?;
    Ok(Request::Step(Step::Command(client, Command::Lock { point, hi, mode })))
}

fn lower(arguments: &[&[u8]]) -> Result<Request, LineFault>
    ensures { Gives result (lower_of (map (λ word. word.now) arguments.now)) }
{
    count(4, arguments)?;
    let client = number_at(arguments, 0)?;
    let lo = number_at(arguments, 1)?;
    let hi = number_at(arguments, 2)?;
    let keep = mode_at(arguments, 3)?;
    Ok(Request::Step(Step::Command(client, Command::Lower { lo, hi, keep })))
}

// What a line asks for that writes, after `take`.
fn taken(word: Word, arguments: &[&[u8]]) -> Result<Request, LineFault>
    ensures { Gives result (taken_of word (map (λ word. word.now) arguments.now)) }
{
    match word {
        Word::Valued(word) => {
            let (client, key, value) = valued(arguments)?;
            Ok(word.taking(client, key, value))
        }
        Word::ClientAndNumber(ClientAndNumber::Delete) => {
            let (client, key) = client_and_number(arguments)?;
            let op = WriteOp::Delete { key };
            Ok(Request::Step(Step::Command(client, Command::Seize(op))))
        }
        _ => Err(LineFault::Syntax(SyntaxFault::UnknownWord)),
    }
}

fn take(arguments: &[&[u8]]) -> Result<Request, LineFault>
    ensures { Gives result (take_of (map (λ word. word.now) arguments.now)) }
{
    let Some((text, arguments)) = arguments.split_first() else {
        return Err(LineFault::Syntax(SyntaxFault::MissingArgument));
    };
    let word = Word::from_text(text).ok_or(LineFault::Syntax(SyntaxFault::UnknownWord))?;
    taken(word, arguments)
}

fn crash(arguments: &[&[u8]]) -> Result<Request, LineFault>
    ensures { Gives result (crash_of (map (λ word. word.now) arguments.now)) }
{
    count(1, arguments)?;
    if is_text(arguments[0], "server") {
        return Ok(Request::Step(Step::CrashServer));
    }
    let client = number_at(arguments, 0)?;
    Ok(Request::Step(Step::CrashClient(client)))
}

// What is started is a part of the word, so another one is an unknown word.
fn start(arguments: &[&[u8]]) -> Result<Request, LineFault>
    ensures { Gives result (start_of (map (λ word. word.now) arguments.now)) }
{
    if !arguments.is_empty() && !is_text(arguments[0], "server") {
        return Err(LineFault::Syntax(SyntaxFault::UnknownWord));
    }
    count(1, arguments)?;
    Ok(Request::Step(Step::StartServer))
}

#[tactic(auto, unfolding(crate::specs::Words::request_of))]
fn request(alloc: Global, word: Word, arguments: &[&[u8]]) -> Result<Request, LineFault>
    ensures { Gives result (request_of word (map (λ word. word.now) arguments.now)) }
{
    match word {
        Word::Seed => seed(alloc, arguments),
        Word::Lock => lock(arguments),
        Word::Lower => lower(arguments),
        Word::Take => take(arguments),
        Word::Crash => crash(arguments),
        Word::Start => start(arguments),
        Word::Alone(word) => {
            count(0, arguments)?;
            Ok(word.request())
        }
        Word::OneNumber(word) => {
            let number = one_number(arguments)?;
            Ok(word.request(number))
        }
        Word::ClientAndNumber(word) => {
            let (client, second) = client_and_number(arguments)?;
            Ok(word.request(client, second))
        }
        Word::Valued(word) => {
            let (client, key, value) = valued(arguments)?;
            Ok(word.request(client, key, value))
        }
        Word::ClientAndTwo(word) => {
            let (client, second, third) = client_and_two(arguments)?;
            Ok(word.request(client, second, third))
        }
    }
}

fn request_of_words(alloc: Global, words: &[&[u8]]) -> Result<Request, LineFault>
    ensures { Gives result (meaning_of_words (map (λ word. word.now) words.now)) }
{
    let Some((text, arguments)) = words.split_first() else {
        return Ok(Request::Nothing);
    };
    let word = Word::from_text(text).ok_or(LineFault::Syntax(SyntaxFault::UnknownWord))?;
    request(alloc, word, arguments)
}

/// What a line asks for, or its first fault: an unknown word, then the number of its arguments,
/// then each argument from left to right.
#[tactic(auto, unfolding(crate::specs::Words::meaning_of))]
pub fn request_of_line(alloc: Global, line: &[u8]) -> Result<Request, LineFault>
    ensures { Gives result (meaning_of line.now) }
{
    if line.starts_with(b"#") {
        return Ok(Request::Nothing);
    }
    let words = words(alloc, line)?;
    request_of_words(alloc, &words)
}
