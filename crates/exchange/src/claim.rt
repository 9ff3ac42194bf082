// What an exchange is claimed to keep.
use message::closed::Message;

// The kinds of claims, as a file has them.
pub(crate) const SECRET: u8 = 1;

pub(crate) const SESSION_SECRET: u8 = 2;

pub(crate) const MATCHED: u8 = 3;

pub(crate) const MATCHED_ONCE: u8 = 4;

// A claim with its message, or with the bytes that its message is still to be read from.
#[derive(Clone, Copy)]
pub enum Claim<M = Message> {
    // the attacker never makes this message
    Secret(M),
    // the attacker never makes the value of this session's variable
    SessionSecret { session: u8, variable: u8 },
    // no message has an end with this mark and no begin with it
    Matched { mark: u8 },
    // no message has more ends with this mark than begins
    MatchedOnce { mark: u8 },
}
