// What a byte of a form stands for.
ghost use Rattle.std.specs.Prelude.{◌≡◌};
ghost use Rattle.message.specs.Bytes.{symbol, inverse_of};
ghost use Rattle.message.specs.Filling.{of_kind};

// The five kinds of atoms. Each kind has variables of its own.
#[derive(Clone, Copy, PartialEq, Eq, Debug)]
pub enum Kind {
    Name,
    Nonce,
    Data,
    SharedKey,
    PairKey,
}

// What a byte stands for at the front of a form.
#[derive(Clone, Copy, PartialEq, Eq, Debug)]
pub enum Symbol {
    Atom(Kind),
    Variable(Kind),
    Join,
    Lock,
    Unused,
}

// What a byte stands for.
impl From<u8> for Symbol {
    ghost from_gives = { λ byte s. s ≡ symbol byte };

    fn from(byte: u8) -> Symbol
        ensures value { result ≡ symbol byte }
    {
        match byte {
            0x00..=0x1F => Symbol::Atom(Kind::Name),
            0x20..=0x3F => Symbol::Atom(Kind::Nonce),
            0x40..=0x4F => Symbol::Atom(Kind::Data),
            0x50..=0x5F => Symbol::Atom(Kind::SharedKey),
            0x60..=0x6F => Symbol::Atom(Kind::PairKey),
            0x80..=0x8F => Symbol::Variable(Kind::Name),
            0x90..=0x9F => Symbol::Variable(Kind::Nonce),
            0xA0..=0xAF => Symbol::Variable(Kind::Data),
            0xB0..=0xBF => Symbol::Variable(Kind::SharedKey),
            0xC0..=0xCF => Symbol::Variable(Kind::PairKey),
            0xF0 => Symbol::Join,
            0xF1 => Symbol::Lock,
            _ => Symbol::Unused,
        }
    }
}

// The key that opens what `key` locks, or nothing where the byte is no key.
pub fn inverse(key: u8) -> Option<u8>
    ensures value { result ≡ inverse_of key }
{
    match Symbol::from(key) {
        Symbol::Atom(Kind::SharedKey) => Some(key),
        Symbol::Atom(Kind::PairKey) => Some(if key % 2 == 0 { key + 1 } else { key - 1 }),
        _ => None,
    }
}

// Whether `variable` is a variable and `atom` an atom of its kind.
#[tactic(auto, unfolding(crate::specs::Filling::of_kind))]
pub fn fits_kind(variable: u8, atom: u8) -> bool
    ensures value { result ≡ of_kind variable atom }
{
    match (Symbol::from(variable), Symbol::from(atom)) {
        (Symbol::Variable(wanted), Symbol::Atom(kind)) => wanted == kind,
        _ => false,
    }
}
