ghost use Rattle.std.specs.Prelude.{◌≡◌, ◌-◌, ◌<◌, ◌≤◌, length, drop, MatchResult};
ghost use Rattle.message.specs.Forms.{text};
ghost use Rattle.message.specs.Rows.{items_in, rest_of};
ghost use Rattle.message.specs.Variables.{is_new, noted, firsts, names_in, InOrder};

use crate::form::Form;
use crate::reader::{is_variable, occurs};
use crate::row::{Full, Row};
use crate::variables::Variables;

// Whether `byte` is a variable that is not among those found.
fn is_new(byte: u8, found: &[u8]) -> bool
    ensures value { result ≡ is_new found.now byte }
{
    is_variable(byte) && !occurs(byte, found)
}

impl<const N: usize> Row<u8, N> {
    // Notes the byte if it is a variable that is not among the items; refused, with nothing changed, where it would be
    // one too many.
    pub fn note(&mut self, byte: u8) -> Result<(), Full>
        ensures noted { MatchResult result (λ _. (length (noted (items_in self.old) byte) ≤ N) × (items_in self.new ≡ noted (items_in self.old) byte)) (λ _. (N < length (noted (items_in self.old) byte)) × (self.new ≡ self.old)) }
        ensures rest { rest_of self.new ≡ drop (length (items_in self.new) - length (items_in self.old)) (rest_of self.old) }
    {
        if is_new(byte, self.as_slice()) {
            self.push(byte)?;
        }
        Ok(())
    }
}

impl Form {
    // The variables of the form, each once, in order of first occurrence.
    pub fn variables(&self) -> Variables
        ensures names { names_in result ≡ firsts (text self.now) }
        ensures in_order { InOrder (names_in result) (text self.now) }
    {
        let mut names = Row::new(0);
        for byte in self.bytes() {
            names.note(*byte).unwrap();
        }
        Variables { names }
    }
}

impl Variables {
    // The names, in their order.
    pub fn names(&self) -> &[u8]
        ensures value { result.now ≡ names_in self.now }
    {
        self.names.as_slice()
    }
}
