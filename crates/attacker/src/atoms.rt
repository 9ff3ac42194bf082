// A set of atoms, a bit for each.
ghost use Rattle.std.specs.Prelude.{◌≡◌, ℕ, ◌≤◌, false, ◌&&◌, ◌||◌, ◌==◌, nat_lt};
ghost use Rattle.attacker.specs.Atoms.{within, key_bits};

#[derive(Clone, Copy)]
pub struct Atoms {
    bits: u128,
}

#[tactic(auto, using(crate::proofs::Bitset::single_bits), unfolding(crate::specs::Atoms::within, crate::specs::Atoms::key_bits))]
impl Atoms {
    // No atom.
    pub fn none() -> Atoms
        ensures empty { (b : ℕ) → within result b ≡ false }
    {
        Atoms { bits: 0 }
    }

    // Whether the atom is in the set. A byte that is no atom never is.
    pub fn has(self, atom: u8) -> bool
        ensures value { result ≡ within self atom }
    {
        atom < 128 && self.bits >> atom & 1 == 1
    }

    // The bits of the keys alone.
    pub fn keys(self) -> u128
        ensures value { result ≡ key_bits self }
    {
        self.bits >> 0x50 & 0xFFFF_FFFF
    }

    // Puts the atom into the set; a byte above 127 changes nothing.
    pub fn add(&mut self, atom: u8)
        ensures members { (b : ℕ) → within self.new b ≡ (within self.old b || (nat_lt atom 128 && atom == b)) }
    {
        if atom < 128 {
            self.bits |= 1 << atom;
        }
    }
}
