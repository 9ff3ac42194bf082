// What a message is made of.
ghost use Rattle.std.specs.Prelude.{◌≡◌, IfSome};
ghost use Rattle.message.specs.Trees.{Tree, write};
ghost use Rattle.attacker.specs.Known.{ClosedForm};
ghost use Rattle.attacker.specs.Shapes.{IsCutOf, HasShape};

use message::kind::Symbol;
use message::reader::form_length;

// An atom, two messages joined, or a message locked under a key.
#[derive(Clone, Copy)]
pub enum Shape<'a> {
    Atom(u8),
    Joined(&'a [u8], &'a [u8]),
    Locked(u8, &'a [u8]),
}

// The shape of a message. Bytes that are no message have one by their first byte, or none.
pub fn shape_of(message: &[u8]) -> Option<Shape>
    ensures cut { IfSome result (λ shape. IsCutOf shape message.now) }
    ensures tree { (t : Tree) → ClosedForm t → write t ≡ message.now → HasShape t result }
{
    match message {
        [] => None,
        [first, rest @ ..] => match Symbol::from(*first) {
            Symbol::Atom(_) => Some(Shape::Atom(*first)),
            Symbol::Join => {
                let (left, right) = rest.split_at(form_length(rest)?);
                Some(Shape::Joined(left, right))
            }
            Symbol::Lock => match rest {
                [] => None,
                [key, inside @ ..] => Some(Shape::Locked(*key, inside)),
            },
            Symbol::Variable(_) | Symbol::Unused => None,
        },
    }
}
