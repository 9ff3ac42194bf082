// The one reader of forms.
ghost use Rattle.std.specs.Prelude.{◌≡◌, ℕ, ◌<◌, ◌≤◌, length, IfSome};
ghost use Rattle.std.specs.Option.{option_map};
ghost use Rattle.std.specs.Str.{bytes_eq};
ghost use Rattle.message.specs.Bytes.{is_variable, is_locking};
ghost use Rattle.message.specs.Trees.{size, reads, closed};
ghost use Rattle.message.specs.Variables.{among};

use crate::kind::{Kind, Symbol};

// Whether `byte` may lock: a key, or a variable that stands for one.
#[tactic(auto, unfolding(crate::specs::Bytes::is_locking))]
fn can_lock(byte: u8) -> bool
    ensures value { result ≡ is_locking byte }
{
    matches!(
        Symbol::from(byte),
        Symbol::Atom(Kind::SharedKey | Kind::PairKey)
            | Symbol::Variable(Kind::SharedKey | Kind::PairKey)
    )
}

// Whether `byte` is a variable.
#[tactic(auto, unfolding(crate::specs::Bytes::is_variable))]
pub fn is_variable(byte: u8) -> bool
    ensures value { result ≡ is_variable byte }
{
    matches!(Symbol::from(byte), Symbol::Variable(_))
}

// Whether no byte is a variable.
pub(crate) fn is_closed(bytes: &[u8]) -> bool
    ensures value { result ≡ closed bytes.now }
{
    !bytes.iter().any(|byte| is_variable(*byte))
}

// Whether `byte` occurs in `bytes`.
pub fn occurs(byte: u8, bytes: &[u8]) -> bool
    ensures value { result ≡ among byte bytes.now }
{
    bytes.iter().any(|other| byte == *other)
}

// Whether two byte strings are the same.
pub fn same_bytes(a: &[u8], b: &[u8]) -> bool
    ensures value { result ≡ bytes_eq a.now b.now }
{
    a == b
}

// How many bytes the form at the front of `bytes` takes, or nothing where no form stands there.
pub fn form_length(bytes: &[u8]) -> Option<usize>
    ensures reads { (f : ℕ) → length bytes.now ≤ f → result ≡ option_map size (reads f bytes.now) }
    ensures within { IfSome result (λ n. (0 < n) × (n ≤ length bytes.now)) }
{
    let (first, rest) = bytes.split_first()?;
    match Symbol::from(*first) {
        Symbol::Atom(_) | Symbol::Variable(_) => Some(1),
        Symbol::Join => {
            let left = form_length(rest)?;
            let right = form_length(&rest[left..])?;
            Some(1 + left + right)
        }
        Symbol::Lock => match rest {
            [key, inside @ ..] if can_lock(*key) => Some(2 + form_length(inside)?),
            _ => None,
        },
        Symbol::Unused => None,
    }
}
