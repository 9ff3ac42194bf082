// Every way in which a call of this project can refuse, and the number by which it is reported.
ghost use Rattle.std.specs.Prelude.{◌≡◌};
ghost use Rattle.message.specs.Stops.{number_of};

#[derive(Clone, Copy, PartialEq, Eq, Debug)]
pub enum Stop {
    // a file of over 8,192 bytes
    FileTooLong = 1,
    // a field's header or value, or the end field, is not there or cut short
    Incomplete = 2,
    // a tag that is not known or stands out of order, or a field after the end
    MisplacedTag = 3,
    // another length than the tag allows
    WrongLength = 4,
    // a label with a byte below 21 or above 7E
    BadLabel = 5,
    // not one form of 1 to 24 bytes
    NotOneForm = 6,
    // a variable where a message is due
    VariableInMessage = 7,
    // an atom that is used and not declared by then
    UndeclaredAtom = 8,
    // an atom declared again, or variables that do not ascend
    NotAscending = 9,
    // a limit passed
    LimitPassed = 10,
    // a new part of a file while a step, role, session, claim or sheet head is still owed
    PartMissing = 11,
    // a number beyond its range: kind, atom, mark, role or session; or a variable that no form of the role has
    OutOfRange = 12,
    // a send, begin or end with a variable that has no value by then
    UnboundVariable = 13,
    // a starting value of another kind than its variable
    WrongKind = 14,
    // a receive with more than 3 new variables
    TooManyNewVariables = 15,
    // an output buffer that is too small
    BufferTooSmall = 16,
    // no exchange is loaded
    NoExchange = 21,
    // an allowance of 0
    NoAllowance = 22,
    // a total that would pass 4,000,000,000
    TotalTooLarge = 23,
    // the phase is sound or broken
    AlreadyFinished = 24,
    // the phase is not broken
    NotBroken = 25,
    // bytes that are not a closed form
    NotClosedForm = 31,
    // 128 messages are heard already
    HeardEnough = 32,
    // a fall back that names more messages than there are
    AboveCount = 33,
    // a line of a sheet is not permitted
    LineNotPermitted = 41,
    // the claim holds at the end of the run
    ClaimHolds = 42,
    // a claim number that the exchange does not have
    NoSuchClaim = 43,
}

impl Stop {
    // The number under which this stop is listed.
    pub fn number(self) -> u8
        ensures value { result ≡ number_of self }
    {
        self as u8
    }
}
