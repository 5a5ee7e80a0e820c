ghost use Rattle.std.specs.Prelude.{◌≡◌, ◌+◌, ◌<◌, ◌≤◌, true, length, take, drop, IfOk};
ghost use Rattle.std.specs.List.{prefix_len};
ghost use Rattle.refusal.specs.Tellings.{told_as};
ghost use Rattle.lines.specs.Bytes.{is_letter};
ghost use Rattle.lines.specs.Lines.{inside, first_line, after_line, digits_on, number_of, named, valued, keyed_at, split, parsed, reading, read_line};
ghost use Rattle.lines.specs.View.{line_at, said_by, heard, spoken};
ghost use Rattle.lines.specs.Writing.{ReadAsWritten};

use crate::bytes::Class;
use crate::token::Line;
use refusal::Refusal;

// how many letters stand in front
fn letters(s: &[u8]) -> usize
    ensures { result ≡ prefix_len is_letter s.now }
{
    s.iter()
        .take_while(|b| Class::of(**b) == Class::Letter)
        .count()
}

// how many bytes stand before the first newline
fn before_newline(s: &[u8]) -> usize
    ensures count { result ≡ prefix_len inside s.now }
    ensures within { result ≤ length s.now }
{
    s.iter()
        .take_while(|b| Class::of(**b) != Class::Newline)
        .count()
}

// How many bytes the first line of a text has, with its newline if there is one.
pub fn line_width(s: &[u8]) -> usize
    ensures first { take result s.now ≡ first_line s.now }
    ensures after { drop result s.now ≡ after_line s.now }
    ensures some { 0 < length s.now → 0 < result }
    ensures within { result ≤ length s.now }
{
    (before_newline(s) + 1).min(s.len())
}

// the number that digits write, if it has 32 bits
fn digits(s: &[u8]) -> Option<u32>
    ensures { result ≡ digits_on 0 s.now }
{
    // kept: `try_fold` is no shorter, and its proof is an induction of its own
    let mut n: u32 = 0;
    for b in s {
        if Class::of(*b) != Class::Digit {
            return None;
        }
        n = n.checked_mul(10)?.checked_add(u32::from(*b - b'0'))?;
    }
    Some(n)
}

// the same, with no leading zero
fn number(s: &[u8]) -> Option<u32>
    ensures { result ≡ number_of s.now }
{
    match s {
        [] | [b'0', _, ..] => None,
        _ => digits(s),
    }
}

// a key, or a word
fn is_name(s: &[u8]) -> bool
    ensures { result ≡ named s.now }
{
    (1..=8).contains(&s.len()) && letters(s) == s.len()
}

fn with_value<'a>(at: usize, key: &'a [u8], value: &'a [u8]) -> Option<Line<'a>>
    ensures { spoken result ≡ heard at (valued key.now value.now) }
{
    if is_name(value) {
        return Some(Line::Word { at, key, value });
    }
    let number = number(value)?;
    Some(Line::Number {
        at,
        key,
        value,
        number,
    })
}

// k letters in front are a key, with the sign after it
fn is_keyed(k: usize, body: &[u8]) -> bool
    ensures value { result ≡ keyed_at k body.now }
    ensures within { result ≡ true → k < length body.now }
{
    (1..=8).contains(&k) && k < body.len() && Class::of(body[k]) == Class::Equals
}

// a line without its newline
fn body_of<'a>(at: usize, body: &'a [u8]) -> Option<Line<'a>>
    ensures { spoken result ≡ heard at (split (prefix_len is_letter body.now) body.now) }
{
    let k = letters(body);
    if !is_keyed(k, body) {
        return None;
    }
    with_value(at, &body[0..k], &body[k + 1..])
}

fn line_of<'a>(at: usize, line: &'a [u8]) -> Option<Line<'a>>
    ensures { spoken result ≡ heard at (parsed line.now) }
{
    let (last, body) = line.split_last()?;
    if Class::of(*last) != Class::Newline {
        return None;
    }
    body_of(at, body)
}

// The first line of a text, which gets the number `at`, and the text after it. A text with no line left ends early (12);
// a line that is not of the form is refused with 11. Unlike a `Text`, it takes any number.
pub fn read_line<'a>(at: usize, text: &'a [u8]) -> Result<(Line<'a>, &'a [u8]), Refusal>
    ensures answer { told_as (λ x. reading (line_at x.0) (said_by x.0) x.1.now) result ≡ read_line at text.now }
    ensures written { ReadAsWritten at text.now (told_as (λ x. reading (line_at x.0) (said_by x.0) x.1.now) result) }
    ensures less { IfOk result (λ x. length x.1.now + 1 ≤ length text.now) }
{
    if text.is_empty() {
        return Err(Refusal::TextOrder(at));
    }
    let (line, rest) = text.split_at(line_width(text));
    let line = line_of(at, line).ok_or(Refusal::TextLine(at))?;
    Ok((line, rest))
}
