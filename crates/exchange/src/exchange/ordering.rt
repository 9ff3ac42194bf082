ghost use Rattle.std.specs.Prelude.{◌≡◌, length};
ghost use Rattle.exchange.specs.Checks.{is_due, has_room, last_role};
ghost use Rattle.exchange.specs.Views.{exchange_of};

use crate::exchange::Exchange;
use crate::tag::Tag;

impl Exchange {
    // How many steps the last role has; none where there is no role.
    fn last_steps(&self) -> usize
        ensures value { result ≡ length (last_role (exchange_of self.now)) }
    {
        self.roles.last().map_or(0, |role| role.steps().len())
    }

    // Whether all is there that has to stand before a field with this tag.
    pub(crate) fn is_due(&self, tag: Tag) -> bool
        ensures value { result ≡ is_due (exchange_of self.now) tag }
    {
        match tag {
            Tag::AtomTag | Tag::OpeningTag => true,
            Tag::RoleTag => self.roles.is_empty() || 1 <= self.last_steps(),
            Tag::StepTag => !self.roles.is_empty(),
            Tag::SessionTag => !self.roles.is_empty() && 1 <= self.last_steps(),
            Tag::ClaimTag => !self.sessions.is_empty(),
            Tag::EndTag => !self.claims.is_empty(),
        }
    }

    // Whether a field with this tag passes no limit by its number.
    pub(crate) fn has_room(&self, tag: Tag) -> bool
        ensures value { result ≡ has_room (exchange_of self.now) tag }
    {
        match tag {
            Tag::AtomTag | Tag::EndTag => true,
            Tag::OpeningTag => self.opening.len() < 32,
            Tag::RoleTag => self.roles.len() < 4,
            Tag::StepTag => self.last_steps() < 12,
            Tag::SessionTag => self.sessions.len() < 8,
            Tag::ClaimTag => self.claims.len() < 8,
        }
    }
}
