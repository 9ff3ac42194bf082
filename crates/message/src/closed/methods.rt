ghost use Rattle.std.specs.Prelude.{◌≡◌, true, false, MatchOption};
ghost use Rattle.std.specs.Str.{bytes_eq};
ghost use Rattle.message.specs.Forms.{text};
ghost use Rattle.message.specs.Messages.{message_text, OneMessage};
ghost use Rattle.message.specs.Trees.{Tree, write, closed, is_message, Fits};

use crate::closed::Message;
use crate::form::Form;
use crate::reader::is_closed;

impl Form {
    // The form as a message, where it has no variable.
    pub fn message(self) -> Option<Message>
        ensures cases { MatchOption result (closed (text self) ≡ false) (λ m. (closed (text self) ≡ true) × (message_text m ≡ text self)) }
    {
        if is_closed(self.bytes()) {
            Some(Message { form: self })
        } else {
            None
        }
    }
}

impl Message {
    // The message that all the bytes are, or nothing where they are no closed form.
    #[tactic(auto, using(crate::proofs::OneValue::one_message))]
    pub fn read(bytes: &[u8]) -> Option<Message>
        ensures value { MatchOption result (is_message bytes.now ≡ false) (λ m. (is_message bytes.now ≡ true) × (message_text m ≡ bytes.now)) }
        ensures one_value { OneMessage }
        ensures equal { (a b : Message) → ⟦<Message as PartialEq>⟧.eq a b ≡ bytes_eq (message_text a) (message_text b) }
    {
        Form::read(bytes).ok()?.message()
    }

    // The message as a form.
    pub fn form(&self) -> Form
        ensures value { result ≡ self.now.form }
    {
        let Message { form } = *self;
        form
    }

    // The bytes of the message.
    pub fn bytes(&self) -> &[u8]
        ensures value { result.now ≡ message_text self.now }
    {
        self.form.bytes()
    }
}
