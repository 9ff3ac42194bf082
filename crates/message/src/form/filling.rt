ghost use Rattle.std.specs.Prelude.{◌≡◌, Some, None, MatchOption};
ghost use Rattle.std.specs.Option.{option_map};
ghost use Rattle.message.specs.Filling.{filled_byte, filled, fill_tree};
ghost use Rattle.message.specs.Forms.{text};
ghost use Rattle.message.specs.Messages.{message_text};
ghost use Rattle.message.specs.Trees.{Tree, form_of, message_of};
ghost use Rattle.message.specs.Values.{value_in};

use crate::closed::Message;
use crate::form::Form;
use crate::reader::is_variable;
use crate::row::Row;
use crate::values::Values;

// What `byte` is replaced by: a variable by its value, if it has one, and any other byte by itself.
fn replacement(byte: u8, values: &Values) -> Option<u8>
    ensures value { result ≡ filled_byte (value_in values.now) byte }
{
    if is_variable(byte) {
        values.value(byte)
    } else {
        Some(byte)
    }
}

impl Form {
    // The message that the form becomes when each variable is replaced by its value; nothing where one has none.
    pub fn fill(&self, values: &Values) -> Option<Message>
        ensures value { option_map message_text result ≡ filled (value_in values.now) (text self.now) }
        ensures tree { (t : Tree) → form_of (text self.now) ≡ Some t → MatchOption result (fill_tree (value_in values.now) t ≡ None) (λ m. (u : Tree) × (fill_tree (value_in values.now) t ≡ Some u) × (message_of (message_text m) ≡ Some u)) }
    {
        // In place: a variable and its value take one byte each.
        let Row { mut memory, count } = self.bytes;
        for i in 0..count {
            memory[i] = replacement(memory[i], values)?;
        }
        let bytes = Row { memory, count };
        let form = Form { bytes };
        Some(Message { form })
    }
}
