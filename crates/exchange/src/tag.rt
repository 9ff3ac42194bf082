// The tags of an exchange file's fields.
ghost use Rattle.std.specs.Prelude.{◌≡◌};
ghost use Rattle.std.specs.Option.{ok_or};
ghost use Rattle.message.specs.declared.stop.Stop.TheVariants.{MisplacedTag};
ghost use Rattle.exchange.specs.Checks.{tag_of, may_follow, length_fits};

use message::stop::Stop;

#[derive(Clone, Copy, PartialEq, Eq, Debug)]
pub enum Tag {
    // an atom and its label
    AtomTag = 0x01,
    // an opening message
    OpeningTag = 0x02,
    // the beginning of a role
    RoleTag = 0x03,
    // a step of the role begun last
    StepTag = 0x04,
    // a session
    SessionTag = 0x05,
    // a claim
    ClaimTag = 0x06,
    // the end of the file
    EndTag = 0x7F,
}

// The tag that a byte stands for; refused where it stands for none.
impl TryFrom<u8> for Tag {
    type Error = Stop;

    ghost try_from_gives = { λ byte r. r ≡ ok_or (tag_of byte) MisplacedTag };

    fn try_from(byte: u8) -> Result<Tag, Stop> {
        match byte {
            0x01 => Ok(Tag::AtomTag),
            0x02 => Ok(Tag::OpeningTag),
            0x03 => Ok(Tag::RoleTag),
            0x04 => Ok(Tag::StepTag),
            0x05 => Ok(Tag::SessionTag),
            0x06 => Ok(Tag::ClaimTag),
            0x7F => Ok(Tag::EndTag),
            _ => Err(Stop::MisplacedTag),
        }
    }
}

impl Tag {
    // Whether a field with this tag may stand after one with the tag `last`.
    pub(crate) fn may_follow(self, last: Option<Tag>) -> bool
        ensures value { result ≡ may_follow last self }
    {
        match (last, self) {
            (None, _) => true,
            (Some(Tag::EndTag), _) => false,
            (Some(Tag::StepTag), Tag::RoleTag) => true,
            (Some(last), tag) => last as u8 <= tag as u8,
        }
    }

    // Whether a value under this tag may have this length.
    pub(crate) fn fits_length(self, len: usize) -> bool
        ensures value { result ≡ length_fits self len }
    {
        match self {
            Tag::AtomTag => (2..=13).contains(&len),
            Tag::OpeningTag => (1..=24).contains(&len),
            Tag::RoleTag | Tag::EndTag => len == 0,
            Tag::StepTag => (2..=26).contains(&len),
            Tag::SessionTag => (1..=17).contains(&len) && len % 2 == 1,
            Tag::ClaimTag => (2..=25).contains(&len),
        }
    }
}
