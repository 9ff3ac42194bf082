// Reading a field into the exchange.
ghost use Rattle.std.specs.Prelude.{◌≡◌, ◌+◌, ◌≤◌, length, IfSome, IfOk};
ghost use Rattle.exchange.specs.Checks.{adds, takes, cut, turn};
ghost use Rattle.exchange.specs.Fields.{item_seen};
ghost use Rattle.exchange.specs.Reading.{added, Ready, cut_seen, turned};
ghost use Rattle.exchange.specs.Views.{exchange_of};

use crate::exchange::Exchange;
use crate::field::Field;
use crate::tag::Tag;
use message::stop::Stop;

// The tag and the value of the field at the front, or nothing where it is not whole.
fn cut_field(bytes: &[u8]) -> Option<(u8, &[u8])>
    ensures value { cut_seen result ≡ cut bytes.now }
    ensures within { IfSome result (λ f. 3 + length f.1.now ≤ length bytes.now) }
{
    let [tag, high, low, rest @ ..] = bytes else {
        return None;
    };
    let len = usize::from(u16::from_be_bytes([*high, *low]));
    Some((*tag, rest.get(..len)?))
}

impl Exchange {
    // Puts what the field says into the exchange.
    fn accept(&mut self, field: Field<'_>) -> Result<(), Stop>
        requires ready { Ready (exchange_of self.old) (item_seen field) }
        ensures added { added result (exchange_of self.new) ≡ adds (exchange_of self.old) (item_seen field.entry) }
    {
        match field {
            Field::Atom { atom, label } => self.add_declaration(atom, label),
            Field::Opening { message } => self.add_opening(message),
            Field::Role => {
                self.add_role();
                Ok(())
            }
            Field::Step(step) => self.add_step(step),
            Field::Session { role, pairs } => self.add_session(role, pairs),
            Field::Claim(claim) => self.add_claim(claim),
            Field::Finish => Ok(()),
        }
    }

    // Takes a whole field, where the field before it has the tag `last`.
    fn take_field(&mut self, last: Option<Tag>, tag: Tag, value: &[u8]) -> Result<(), Stop>
        ensures added { added result (exchange_of self.new) ≡ takes last (exchange_of self.old) tag value.now }
    {
        if !tag.may_follow(last) {
            return Err(Stop::MisplacedTag);
        }
        if !self.is_due(tag) {
            return Err(Stop::PartMissing);
        }
        if !self.has_room(tag) {
            return Err(Stop::LimitPassed);
        }
        let field = Field::read(tag, value)?;
        self.accept(field)
    }

    // Takes the field at the front, and answers its tag and how many bytes it has.
    pub(crate) fn read_field(
        &mut self,
        last: Option<Tag>,
        bytes: &[u8],
    ) -> Result<(Tag, usize), Stop>
        ensures turn { turned result (exchange_of self.new) ≡ turn last (exchange_of self.old) bytes.now }
        ensures within { IfOk result (λ t. (3 ≤ t.1) × (t.1 ≤ length bytes.now)) }
    {
        let (byte, value) = cut_field(bytes).ok_or(Stop::Incomplete)?;
        let tag = Tag::try_from(byte)?;
        self.take_field(last, tag, value)?;
        Ok((tag, 3 + value.len()))
    }
}
