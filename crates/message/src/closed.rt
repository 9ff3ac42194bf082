// A message: a form with no variable. Messages are equal where their bytes are.
ghost use Rattle.std.specs.Prelude.{◌≡◌, true};
ghost use Rattle.message.specs.Forms.{text};
ghost use Rattle.message.specs.Trees.{closed};

use crate::form::Form;

pub mod methods;

#[derive(Clone, Copy, PartialEq)]
pub struct Message {
    pub(crate) form: Form,
    ghost fixed: { closed (text form) ≡ true },
}
