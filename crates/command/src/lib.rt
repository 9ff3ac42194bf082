// Reads a line of text as a command: bytes to hear, bytes to ask for, or how far to fall back.
#![tactic(auto)]

ghost use Rattle.std.specs.Prelude.{◌≡◌, ◌<◌, ◌≤◌, length, IfSome, IfOk, vec_items};
ghost use Rattle.command.specs.Line.{blank, word_length, word_of, rest_of, unblanked};
ghost use Rattle.command.specs.Saying.{seen, spoken, command_of};
ghost use Rattle.command.specs.Values.{decimal_digit, hex_digit, hex_byte, hex_bytes, capped, number_of, number_in};
ghost use Rattle.std.specs.Option.{option_map};

use std::alloc::{AllocError, Global};

#[derive(Debug, Drop)]
pub enum Command {
    // the bytes of a message to hear
    Hear(Vec<u8>),
    // the bytes of a message to ask for
    Ask(Vec<u8>),
    // how far to fall back
    Back(usize),
    // an empty line or a comment
    Nothing,
    // not understood
    Unknown,
}

// What a line says, given without its final line feed. It fails only for want of memory.
pub fn read_command(heap: Global, line: &[u8]) -> Result<Command, AllocError>
    ensures value { IfOk result (λ c. seen c ≡ command_of line.now) }
{
    match line.strip_suffix(b"\r").unwrap_or(line) {
        [] | [b'#', ..] => Ok(Command::Nothing),
        text => {
            let (word, rest) = split_word(text);
            read_words(heap, word, rest)
        }
    }
}

// What the first word of a line says with the rest of it.
fn read_words(heap: Global, word: &[u8], rest: &[u8]) -> Result<Command, AllocError>
    ensures value { IfOk result (λ c. seen c ≡ spoken word.now rest.now) }
{
    match word {
        b"hear" => Ok(hex_bytes(heap, rest)?.map_or(Command::Unknown, Command::Hear)),
        b"ask" => Ok(hex_bytes(heap, rest)?.map_or(Command::Unknown, Command::Ask)),
        b"back" => Ok(number_in(rest).map_or(Command::Unknown, Command::Back)),
        _ => Ok(Command::Unknown),
    }
}

fn is_blank(b: u8) -> bool
    ensures value { result ≡ blank b }
{
    matches!(b, b' ' | b'\t')
}

// The bytes before the first blank, and those from it on.
fn split_word(text: &[u8]) -> (&[u8], &[u8])
    ensures word { result.0.now ≡ word_of text.now }
    ensures rest { result.1.now ≡ rest_of text.now }
{
    text.split_at(word_length(text))
}

// How many bytes stand before the first blank.
fn word_length(text: &[u8]) -> usize
    ensures value { result ≡ word_length text.now }
    ensures within { result ≤ length text.now }
{
    text.iter().position(|b| is_blank(*b)).unwrap_or(text.len())
}

// The text from its first byte on that is no blank.
fn skip_blanks(text: &[u8]) -> &[u8]
    ensures value { result.now ≡ unblanked text.now }
    ensures within { length result.now ≤ length text.now }
{
    let blanks = text
        .iter()
        .position(|b| !is_blank(*b))
        .unwrap_or(text.len());
    &text[blanks..]
}

// The bytes that a text writes in hexadecimal, with blanks around them.
fn hex_bytes(heap: Global, text: &[u8]) -> Result<Option<Vec<u8>>, AllocError>
    ensures value { IfOk result (λ o. option_map vec_items o ≡ hex_bytes text.now) }
{
    let mut bytes = Vec::new(heap);
    let mut left = skip_blanks(text);
    while let [high, low, rest @ ..] = left {
        let Some(byte) = hex_byte(*high, *low) else {
            return Ok(None);
        };
        bytes.push(byte)?;
        left = skip_blanks(rest);
    }
    match left {
        [] => Ok(Some(bytes)),
        _ => Ok(None),
    }
}

fn hex_byte(high: u8, low: u8) -> Option<u8>
    ensures value { result ≡ hex_byte high low }
{
    Some(hex_digit(high)? * 16 + hex_digit(low)?)
}

fn hex_digit(b: u8) -> Option<u8>
    ensures value { result ≡ hex_digit b }
    ensures small { IfSome result (λ d. d < 16) }
{
    match b {
        b'a'..=b'f' => Some(b - b'a' + 10),
        b'A'..=b'F' => Some(b - b'A' + 10),
        _ => decimal_digit(b),
    }
}

fn decimal_digit(b: u8) -> Option<u8>
    ensures value { result ≡ decimal_digit b }
    ensures small { IfSome result (λ d. d < 10) }
{
    match b {
        b'0'..=b'9' => Some(b - b'0'),
        _ => None,
    }
}

// The one number in a text, with nothing but blanks around it.
fn number_in(text: &[u8]) -> Option<usize>
    ensures value { result ≡ number_in text.now }
{
    let (digits, rest) = split_word(skip_blanks(text));
    match skip_blanks(rest) {
        [] => decimal(digits),
        _ => None,
    }
}

// The number that one or more digits write; the largest usize stands for all above it.
fn decimal(digits: &[u8]) -> Option<usize>
    ensures value { result ≡ option_map capped (number_of digits.now) }
{
    if digits.is_empty() {
        return None;
    }
    let mut n: usize = 0;
    for b in digits {
        let digit = decimal_digit(*b)?;
        n = n.saturating_mul(10).saturating_add(usize::from(digit));
    }
    Some(n)
}

#[cfg(test)]
mod tests {
    use super::*;
    use std::process::Abort;
    use std::test::Fail;

    fn reads(rt: &impl Abort, heap: Global, line: &[u8], expected: &str) -> Result<(), Fail> {
        let command = read_command(heap, line)?;
        let shown = format!(in heap; "{command:?}")?;
        assert_eq!(rt; shown.as_str(), expected);
        Ok(())
    }

    #[test]
    fn bytes(rt: HostRuntime) -> Result<(), Fail> {
        reads(&rt, rt.alloc(), b"hear 0aFf \t7C\r", "Hear([10, 255, 124])")?;
        reads(&rt, rt.alloc(), b"ask", "Ask([])")?;
        reads(&rt, rt.alloc(), b"hear 0a f", "Unknown")?;
        reads(&rt, rt.alloc(), b"ask 0 a", "Unknown")
    }

    #[test]
    fn numbers(rt: HostRuntime) -> Result<(), Fail> {
        reads(&rt, rt.alloc(), b"back  012 ", "Back(12)")?;
        reads(
            &rt,
            rt.alloc(),
            b"back 18446744073709551616",
            "Back(18446744073709551615)",
        )?;
        reads(&rt, rt.alloc(), b"back 1 2", "Unknown")?;
        reads(&rt, rt.alloc(), b"back", "Unknown")
    }

    #[test]
    fn others(rt: HostRuntime) -> Result<(), Fail> {
        reads(&rt, rt.alloc(), b"\r", "Nothing")?;
        reads(&rt, rt.alloc(), b"# hear", "Nothing")?;
        reads(&rt, rt.alloc(), b" hear", "Unknown")?;
        reads(&rt, rt.alloc(), b"Hear", "Unknown")
    }
}
