ghost use Rattle.std.specs.Prelude.{◌≡◌, ℕ, ◌+◌, ◌-◌, ◌≤◌, true, List, [], ◌∷◌, ◌++◌, length, drop, MatchBool};
ghost use Rattle.message.specs.Messages.{message_text};
ghost use Rattle.message.specs.Trees.{is_message};
ghost use Rattle.attacker.specs.Derivation.{opens, Knowledge};
ghost use Rattle.attacker.specs.Known.{state_of, atom_known, known_by, signs, weight, weights, opens_now, HasRoom, Absorbs, Opens, Inside};

use crate::atoms::Atoms;
use crate::known::{Known, MOST_PARTS};
use crate::shape::{Shape, shape_of};
use message::closed::Message;
use message::kind::inverse;

// The byte that locks.
const LOCK: u8 = 0xF1;

impl Atoms {
    // Whether what `key` locks can be opened with an atom of the set.
    pub fn opens_lock(self, key: u8) -> bool
        ensures value { result ≡ opens (atom_known self) key }
    {
        inverse(key).is_some_and(|opener| self.has(opener))
    }
}

impl Known {
    // Keeps a part.
    fn keep(&mut self, part: &[u8])
        requires room { HasRoom (state_of self.old) 1 }
        ensures kept { is_message part.now ≡ true → (state_of self.new).kept ≡ (state_of self.old).kept ++ part.now ∷ [] }
        ensures few { length (state_of self.new).kept ≤ length (state_of self.old).kept + 1 }
        ensures atoms { self.new.atoms ≡ self.old.atoms }
    {
        if let Some(message) = Message::read(part) {
            self.parts.push_reserved(message);
        }
    }

    // Takes a message apart, and opens the locks in it that `opened` opens; keeps what comes out.
    fn absorb(&mut self, part: &[u8], opened: Atoms)
        requires room { HasRoom (state_of self.old) (signs part.now) }
        ensures absorbs { Absorbs opened part.now (state_of self.old) (state_of self.new) }
        ensures few { length (state_of self.new).kept ≤ length (state_of self.old).kept + signs part.now }
    {
        match shape_of(part) {
            None => {}
            Some(Shape::Atom(atom)) => self.atoms.add(atom),
            Some(Shape::Joined(left, right)) => {
                self.keep(part);
                self.absorb(left, opened);
                self.absorb(right, opened);
            }
            Some(Shape::Locked(key, inside)) => {
                self.keep(part);
                if opened.opens_lock(key) {
                    self.absorb(inside, opened);
                }
            }
        }
    }

    // Opens the part if it is a lock that `wider` opens and `opened` does not, and keeps what comes out.
    fn open_lock(&mut self, part: &[u8], opened: Atoms, wider: Atoms)
        requires room { HasRoom (state_of self.old) (weight opened part.now - 1) }
        ensures opens { MatchBool (opens_now opened wider part.now) (Absorbs wider (drop 2 part.now) (state_of self.old) (state_of self.new)) (state_of self.new ≡ state_of self.old) }
    {
        // By its first byte: a joined part would be read whole only to be passed over.
        if let [LOCK, key, inside @ ..] = part
            && wider.opens_lock(*key)
            && !opened.opens_lock(*key)
        {
            self.absorb(inside, wider);
        }
    }

    // Goes through the kept parts and opens the locks that `wider` opens and `opened` does not.
    fn open_locks(&mut self, opened: Atoms, wider: Atoms)
        requires room { weights opened (state_of self.old).kept ≤ MOST_PARTS }
        requires inside { Inside opened wider }
        ensures room { weights wider (state_of self.new).kept ≡ weights opened (state_of self.old).kept }
        ensures opens { Opens opened wider (state_of self.old) (state_of self.new) }
        ensures keeps { Inside self.old.atoms self.new.atoms }
    {
        // By index, since parts are kept behind them meanwhile.
        let count = self.parts.len();
        for i in 0..count {
            let part = self.parts[i];
            self.open_lock(part.bytes(), opened, wider);
        }
    }

    // Takes a message apart, and opens every lock, old or new, that what is then known opens.
    pub(crate) fn learn(&mut self, message: &Message)
        requires room { weights self.old.atoms (state_of self.old).kept + signs (message_text message.now) ≤ MOST_PARTS }
        ensures room { weights self.new.atoms (state_of self.new).kept ≡ weights self.old.atoms (state_of self.old).kept + signs (message_text message.now) }
        ensures knows { (heard : List (List ℕ)) → Knowledge heard (known_by (state_of self.old)) → Knowledge (heard ++ message_text message.now ∷ []) (known_by (state_of self.new)) }
        ensures keeps { (fresh : List (List ℕ)) × ((state_of self.new).kept ≡ (state_of self.old).kept ++ fresh) }
    {
        let mut opened = self.atoms;
        self.absorb(message.bytes(), opened);
        // Only a key can open a lock.
        while opened.keys() != self.atoms.keys() {
            let wider = self.atoms;
            self.open_locks(opened, wider);
            opened = wider;
        }
    }
}
