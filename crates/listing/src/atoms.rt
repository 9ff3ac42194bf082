// The lines of declared atoms and opening messages.
ghost use Rattle.message.specs.Messages.{message_text};
ghost use Rattle.exchange.specs.Atoms.{declaration_of};
ghost use Rattle.listing.specs.Lines.{declaration_line, opening_line};

use crate::listing::Listing;
use crate::parts::Part;
use crate::words::atom_word;
use exchange::declaration::Declaration;
use message::closed::Message;
use std::alloc::AllocError;

// The line of a declared atom: its label, its kind and its byte.
impl Part for Declaration {
    ghost shown = { λ _ _ d. declaration_line (declaration_of d) };

    fn put(&self, listing: &mut Listing<'_>, _number: usize) -> Result<(), AllocError> {
        let Declaration { atom, label } = *self;
        listing.push_str("atom ")?;
        listing.push_bytes(label.bytes())?;
        listing.push_str(" ")?;
        listing.push_str(atom_word(atom))?;
        listing.push_str(" ")?;
        listing.push_hex(atom)?;
        listing.push_str("\n")
    }
}

// The line of an opening message.
impl Part for Message {
    ghost shown = { λ ds _ m. opening_line ds (message_text m) };

    fn put(&self, listing: &mut Listing<'_>, _number: usize) -> Result<(), AllocError> {
        listing.push_str("opening ")?;
        listing.put_message(self)?;
        listing.push_str("\n")
    }
}
