ghost use Rattle.std.specs.Prelude.{◌≡◌};
ghost use Rattle.message.specs.Trees.{Tree, write};
ghost use Rattle.attacker.specs.Derivation.{builds};
ghost use Rattle.attacker.specs.Known.{state_of, known_by, ClosedForm};

use crate::among::stands_among;
use crate::known::Known;
use crate::shape::{Shape, shape_of};

impl Known {
    // Whether the bytes can be built from what is known, by joining and by locking with a key that is known.
    pub(crate) fn can_build(&self, part: &[u8]) -> bool
        ensures builds { (t : Tree) → ClosedForm t → write t ≡ part.now → result ≡ builds (known_by (state_of self.now)) t }
    {
        match shape_of(part) {
            None => false,
            Some(Shape::Atom(atom)) => self.atoms.has(atom),
            Some(Shape::Joined(left, right)) => {
                self.can_build(left) && self.can_build(right) || stands_among(&self.parts, part)
            }
            Some(Shape::Locked(key, inside)) => {
                self.atoms.has(key) && self.can_build(inside) || stands_among(&self.parts, part)
            }
        }
    }
}
