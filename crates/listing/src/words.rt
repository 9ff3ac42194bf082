// The words for kinds of atoms, and the digits of bytes.
ghost use Rattle.std.specs.Prelude.{◌≡◌, ◌<◌};
ghost use Rattle.message.specs.Bytes.{symbol};
ghost use Rattle.listing.specs.Lines.{kind_text};
ghost use Rattle.listing.specs.Words.{kind_word, variable_word, hex_digit};

use message::kind::{Kind, Symbol};

// The kind of a declared atom.
fn kind_word(kind: Kind) -> &'static str
    ensures value { result.now ≡ kind_word kind }
{
    match kind {
        Kind::Name => "name",
        Kind::Nonce => "nonce",
        Kind::Data => "data",
        Kind::SharedKey => "shared key",
        Kind::PairKey => "pair key",
    }
}

// The kind of an atom; nothing for any other byte.
pub(crate) fn atom_word(byte: u8) -> &'static str
    ensures value { result.now ≡ kind_text (symbol byte) }
{
    match Symbol::from(byte) {
        Symbol::Atom(kind) => kind_word(kind),
        _ => "",
    }
}

// The kind of a variable.
pub(crate) fn variable_word(kind: Kind) -> &'static str
    ensures value { result.now ≡ variable_word kind }
{
    match kind {
        Kind::SharedKey => "shared",
        Kind::PairKey => "pair",
        _ => kind_word(kind),
    }
}

// A hexadecimal digit, in capitals.
pub(crate) fn hex_digit(number: u8) -> u8
    requires digit { number < 16 }
    ensures value { result ≡ hex_digit number }
{
    if number < 10 {
        b'0' + number
    } else {
        b'A' - 10 + number
    }
}
