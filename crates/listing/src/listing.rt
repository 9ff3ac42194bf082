// A listing that is being written.
ghost use Rattle.std.specs.Prelude.{◌++◌, decimal};
ghost use Rattle.listing.specs.Adds.{Adds};
ghost use Rattle.listing.specs.Words.{hex};

use crate::words::hex_digit;
use exchange::declaration::Declaration;
use std::alloc::AllocError;

// The text so far, and the declared atoms, which are shown by their labels.
#[derive(Drop)]
pub(crate) struct Listing<'a> {
    pub(crate) text: &'a mut Vec<u8>,
    pub(crate) atoms: &'a [Declaration],
}

impl Listing<'_> {
    // The bytes as they stand. A label is bytes: its type does not say that they are text.
    pub(crate) fn push_bytes(&mut self, bytes: &[u8]) -> Result<(), AllocError>
        ensures adds { Adds result self.old self.new bytes.now }
    {
        self.text.extend_from_slice(bytes)
    }

    // The words as they stand.
    pub(crate) fn push_str(&mut self, words: &str) -> Result<(), AllocError>
        ensures adds { Adds result self.old self.new words.now }
    {
        self.push_bytes(words.as_bytes())
    }

    // A number in decimal, digit by digit: by `write!` it takes about three times the instructions.
    pub(crate) fn push_decimal(&mut self, number: usize) -> Result<(), AllocError>
        ensures adds { Adds result self.old self.new (decimal number) }
    {
        if number >= 10 {
            self.push_decimal(number / 10)?;
        }
        self.text.push(b'0' + (number % 10) as u8)?;
        Ok(())
    }

    // A number between two words.
    pub(crate) fn push_between(
        &mut self,
        before: &str,
        number: usize,
        after: &str,
    ) -> Result<(), AllocError>
        ensures adds { Adds result self.old self.new (before.now ++ (decimal number ++ after.now)) }
    {
        self.push_str(before)?;
        self.push_decimal(number)?;
        self.push_str(after)
    }

    // A byte in two hexadecimal digits.
    pub(crate) fn push_hex(&mut self, byte: u8) -> Result<(), AllocError>
        ensures adds { Adds result self.old self.new (hex byte) }
    {
        self.push_bytes(&[hex_digit(byte / 16), hex_digit(byte % 16)])
    }
}
