// The texts of atoms, variables and forms.
ghost use Rattle.std.specs.Prelude.{◌≡◌, ℕ, ◌≤◌, true, List, ◌++◌, map, length, IfOk};
ghost use Rattle.message.specs.Forms.{text as bytes_of};
ghost use Rattle.message.specs.Messages.{message_text};
ghost use Rattle.message.specs.Trees.{Tree, proper, write};
ghost use Rattle.exchange.specs.Atoms.{declaration_of};
ghost use Rattle.listing.specs.Adds.{Added, Adds, declared_in};
ghost use Rattle.listing.specs.Puts.{Puts};
ghost use Rattle.listing.specs.Texts.{label_of, byte_text, tree_text, form_text};

use crate::listing::Listing;
use crate::words::variable_word;
use exchange::declaration::Declaration;
use message::closed::Message;
use message::form::Form;
use message::kind::Symbol;
use std::alloc::AllocError;

// The label of an atom; nothing where the atom is not declared.
fn label_of(atoms: &[Declaration], atom: u8) -> &[u8]
    ensures value { result.now ≡ label_of (map declaration_of atoms.now) atom }
{
    atoms
        .iter()
        .find(|declaration| declaration.atom == atom)
        .map_or(&[], |declaration| declaration.label.bytes())
}

impl Listing<'_> {
    // A byte that is an atom or a variable; nothing for any other. A variable is shown as a question mark, its kind and
    // its number in the kind.
    pub(crate) fn put_byte(&mut self, byte: u8) -> Result<(), AllocError>
        ensures adds { Adds result self.old self.new (byte_text (declared_in self.old) byte) }
    {
        match Symbol::from(byte) {
            Symbol::Atom(_) => self.push_bytes(label_of(self.atoms, byte)),
            Symbol::Variable(kind) => {
                self.push_str("?")?;
                self.push_str(variable_word(kind))?;
                self.push_decimal((byte % 16) as usize)
            }
            Symbol::Join | Symbol::Lock | Symbol::Unused => Ok(()),
        }
    }

    // The form at the front of the bytes. Answers the bytes after it.
    fn put_front<'b>(&mut self, bytes: &'b [u8]) -> Result<&'b [u8], AllocError>
        ensures within { IfOk result (λ after. length after.now ≤ length bytes.now) }
        ensures adds { (t : Tree) (rest : List ℕ) → proper t ≡ true → write t ++ rest ≡ bytes.now → IfOk result (λ after. (after.now ≡ rest) × Added self.old self.new (tree_text (declared_in self.old) t)) }
    {
        let [first, rest @ ..] = bytes else {
            return Ok(bytes);
        };
        match Symbol::from(*first) {
            Symbol::Join => {
                self.push_str("(")?;
                let right = self.put_front(rest)?;
                self.push_str(",")?;
                let after = self.put_front(right)?;
                self.push_str(")")?;
                Ok(after)
            }
            Symbol::Lock => {
                let [key, inside @ ..] = rest else {
                    return Ok(rest);
                };
                self.push_str("{")?;
                let after = self.put_front(inside)?;
                self.push_str("}")?;
                self.put_byte(*key)?;
                Ok(after)
            }
            Symbol::Atom(_) | Symbol::Variable(_) | Symbol::Unused => {
                self.put_byte(*first)?;
                Ok(rest)
            }
        }
    }

    // A form.
    pub(crate) fn put_form(&mut self, form: &Form) -> Result<(), AllocError>
        ensures adds { Adds result self.old self.new (form_text (declared_in self.old) (bytes_of form.now)) }
    {
        self.put_front(form.bytes())?;
        Ok(())
    }

    // A message.
    pub(crate) fn put_message(&mut self, message: &Message) -> Result<(), AllocError>
        ensures adds { Adds result self.old self.new (form_text (declared_in self.old) (message_text message.now)) }
    {
        self.put_form(&message.form())
    }
}

// A form.
pub fn put_form(text: &mut Vec<u8>, atoms: &[Declaration], form: &Form) -> Result<(), AllocError>
    ensures puts { Puts result text.old.items text.new.items (form_text (map declaration_of atoms.now) (bytes_of form.now)) }
{
    Listing { text, atoms }.put_form(form)
}

// A message.
pub fn put_message(
    text: &mut Vec<u8>,
    atoms: &[Declaration],
    message: &Message,
) -> Result<(), AllocError>
    ensures puts { Puts result text.old.items text.new.items (form_text (map declaration_of atoms.now) (message_text message.now)) }
{
    Listing { text, atoms }.put_message(message)
}
