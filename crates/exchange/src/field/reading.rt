ghost use Rattle.std.specs.Prelude.{◌≡◌};
ghost use Rattle.exchange.specs.declared.tag.Tag.TheVariants.{StepTag, ClaimTag};
ghost use Rattle.exchange.specs.Checks.{item_of, value_item};
ghost use Rattle.exchange.specs.Fields.{step_read, claim_read, seen};

use crate::claim::{Claim, MATCHED, MATCHED_ONCE, SECRET, SESSION_SECRET};
use crate::field::{Field, Pairs};
use crate::step::{BEGIN, END, RECEIVE, SEND, Step};
use crate::tag::Tag;
use message::stop::Stop;

impl<'f> Field<'f> {
    // What the value of a field with this tag says, as far as the value alone tells.
    pub(crate) fn read(tag: Tag, value: &'f [u8]) -> Result<Field<'f>, Stop>
        ensures value { seen result ≡ item_of tag value.now }
    {
        if !tag.fits_length(value.len()) {
            return Err(Stop::WrongLength);
        }
        match tag {
            Tag::AtomTag => match value {
                [atom, label @ ..] => Ok(Field::Atom { atom: *atom, label }),
                [] => Err(Stop::WrongLength),
            },
            Tag::OpeningTag => Ok(Field::Opening { message: value }),
            Tag::RoleTag => Ok(Field::Role),
            Tag::StepTag => Step::read(value).map(Field::Step),
            Tag::SessionTag => match value {
                [role, bytes @ ..] => Ok(Field::Session {
                    role: *role,
                    pairs: Pairs { bytes },
                }),
                [] => Err(Stop::WrongLength),
            },
            Tag::ClaimTag => Claim::read(value).map(Field::Claim),
            Tag::EndTag => Ok(Field::Finish),
        }
    }
}

impl<'f> Step<&'f [u8]> {
    // A step: its kind, the mark of a begin or end, and its form.
    fn read(value: &'f [u8]) -> Result<Self, Stop>
        ensures value { step_read result ≡ value_item StepTag value.now }
    {
        match value {
            [SEND, form @ ..] => Ok(Step::Send(form)),
            [RECEIVE, form @ ..] => Ok(Step::Receive(form)),
            [BEGIN, mark, form @ ..] if *mark < 16 => Ok(Step::Begin { mark: *mark, form }),
            [END, mark, form @ ..] if *mark < 16 => Ok(Step::End { mark: *mark, form }),
            [] => Err(Stop::WrongLength),
            _ => Err(Stop::OutOfRange),
        }
    }
}

impl<'f> Claim<&'f [u8]> {
    // A claim: its kind, its exact length, and its parts.
    fn read(value: &'f [u8]) -> Result<Self, Stop>
        ensures value { claim_read result ≡ value_item ClaimTag value.now }
    {
        match value {
            [SECRET, message @ ..] => Ok(Claim::Secret(message)),
            [SESSION_SECRET, session, variable] => Ok(Claim::SessionSecret {
                session: *session,
                variable: *variable,
            }),
            [MATCHED, mark] if *mark < 16 => Ok(Claim::Matched { mark: *mark }),
            [MATCHED_ONCE, mark] if *mark < 16 => Ok(Claim::MatchedOnce { mark: *mark }),
            [MATCHED | MATCHED_ONCE, _] => Err(Stop::OutOfRange),
            [] | [SESSION_SECRET | MATCHED | MATCHED_ONCE, ..] => Err(Stop::WrongLength),
            _ => Err(Stop::OutOfRange),
        }
    }
}
