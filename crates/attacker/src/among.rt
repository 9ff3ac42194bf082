// Looking for a message in a list.
ghost use Rattle.std.specs.Prelude.{◌≡◌};
ghost use Rattle.attacker.specs.Laws.{has};
ghost use Rattle.attacker.specs.Texts.{texts};

use message::closed::Message;

// Whether `bytes` are those of one of the messages.
pub fn stands_among(messages: &[Message], bytes: &[u8]) -> bool
    ensures value { result ≡ has (texts messages.now) bytes.now }
{
    messages.iter().any(|message| message.bytes() == bytes)
}
