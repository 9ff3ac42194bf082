ghost use Rattle.std.specs.Prelude.{◌≡◌, ℕ, ◌+◌, ◌<◌, ◌≤◌, List, ◌++◌, length, drop};
ghost use Rattle.std.specs.List.{flat_map};
ghost use Rattle.message.specs.Messages.{message_text};
ghost use Rattle.exchange.specs.Atoms.{declaration_of};
ghost use Rattle.exchange.specs.Checks.{tag_byte};
ghost use Rattle.exchange.specs.Files.{field, declaration_field, opening_field, step_field, role_fields, binding_bytes, session_field, claim_field, file_bytes};
ghost use Rattle.exchange.specs.Parts.{step_of, claim_of};
ghost use Rattle.exchange.specs.Roles.{role_of};
ghost use Rattle.exchange.specs.Sessions.{binding_of, session_of};
ghost use Rattle.exchange.specs.Views.{exchange_of};
ghost use Rattle.exchange.specs.Writing.{HasRoom, Puts, field_start};

use crate::claim::{Claim, MATCHED, MATCHED_ONCE, SECRET, SESSION_SECRET};
use crate::declaration::Declaration;
use crate::exchange::Exchange;
use crate::role::Role;
use crate::session::{Binding, Session};
use crate::step::{BEGIN, END, RECEIVE, SEND, Step};
use crate::tag::Tag;
use message::closed::Message;

// What writes a file into a buffer. `at` is the place up to which the buffer is written, and each call says how much
// room it needs from there on.
#[derive(Drop)]
struct Pen<'a> {
    out: &'a mut [u8],
    at: usize,
}

// A part of an exchange that has bytes of its own in the file.
trait Part {
    ghost written: { Self → List ℕ };

    // Puts the bytes of the part.
    fn put(&self, pen: &mut Pen<'_>)
        requires room { HasRoom pen.old (length (written self.now)) }
        ensures puts { Puts pen.old (written self.now) pen.new };
}

impl Pen<'_> {
    // Puts bytes.
    fn bytes(&mut self, bytes: &[u8])
        requires room { HasRoom self.old (length bytes.now) }
        ensures puts { Puts self.old bytes.now self.new }
    {
        let end = self.at + bytes.len();
        self.out[self.at..end].copy_from_slice(bytes);
        self.at = end;
    }

    // Puts the tag of a field and the length of its value.
    fn start(&mut self, tag: Tag, len: usize)
        requires short { len < 65536 }
        requires room { HasRoom self.old 3 }
        ensures puts { Puts self.old (field_start (tag_byte tag) len) self.new }
    {
        let [high, low] = (len as u16).to_be_bytes();
        self.bytes(&[tag as u8, high, low]);
    }

    // Puts a field whose value is the two pieces.
    fn field(&mut self, tag: Tag, head: &[u8], tail: &[u8])
        requires short { length head.now + length tail.now < 65536 }
        requires room { HasRoom self.old (length (field (tag_byte tag) (head.now ++ tail.now))) }
        ensures puts { Puts self.old (field (tag_byte tag) (head.now ++ tail.now)) self.new }
    {
        self.start(tag, head.len() + tail.len());
        self.bytes(head);
        self.bytes(tail);
    }

    // Puts parts one after the other.
    fn parts<P: Part>(&mut self, parts: &[P])
        requires room { HasRoom self.old (length (flat_map P.Part.written parts.now)) }
        ensures puts { Puts self.old (flat_map P.Part.written parts.now) self.new }
    {
        for part in parts {
            part.put(self);
        }
    }
}

// A declared atom: the atom and its label.
impl Part for Declaration {
    ghost written = { λ d. declaration_field (declaration_of d) };

    fn put(&self, pen: &mut Pen<'_>) {
        pen.field(Tag::AtomTag, &[self.atom], self.label.bytes());
    }
}

// An opening message.
impl Part for Message {
    ghost written = { λ m. opening_field (message_text m) };

    fn put(&self, pen: &mut Pen<'_>) {
        pen.field(Tag::OpeningTag, &[], self.bytes());
    }
}

// A step: its kind, the mark of a begin or end, and its form.
impl Part for Step {
    ghost written = { λ s. step_field (step_of s) };

    fn put(&self, pen: &mut Pen<'_>) {
        match self {
            Step::Send(form) => pen.field(Tag::StepTag, &[SEND], form.bytes()),
            Step::Receive(form) => pen.field(Tag::StepTag, &[RECEIVE], form.bytes()),
            Step::Begin { mark, form } => pen.field(Tag::StepTag, &[BEGIN, *mark], form.bytes()),
            Step::End { mark, form } => pen.field(Tag::StepTag, &[END, *mark], form.bytes()),
        }
    }
}

// A role: the field that begins it, and its steps.
impl Part for Role {
    ghost written = { λ role. role_fields (role_of role) };

    fn put(&self, pen: &mut Pen<'_>) {
        pen.start(Tag::RoleTag, 0);
        pen.parts(self.steps());
    }
}

// A variable and the atom that it has from the start.
impl Part for Binding {
    ghost written = { λ b. binding_bytes (binding_of b) };

    fn put(&self, pen: &mut Pen<'_>) {
        pen.bytes(&[self.variable, self.atom]);
    }
}

// A session: the number of its role, and its starting values.
impl Part for Session {
    ghost written = { λ s. session_field (session_of s) };

    fn put(&self, pen: &mut Pen<'_>) {
        let bindings = self.bindings();
        pen.start(Tag::SessionTag, 1 + 2 * bindings.len());
        pen.bytes(&[self.role()]);
        pen.parts(bindings);
    }
}

// A claim: its kind, and then its message, its session and variable, or its mark.
impl Part for Claim {
    ghost written = { λ c. claim_field (claim_of c) };

    fn put(&self, pen: &mut Pen<'_>) {
        match self {
            Claim::Secret(message) => pen.field(Tag::ClaimTag, &[SECRET], message.bytes()),
            Claim::SessionSecret { session, variable } => {
                pen.field(Tag::ClaimTag, &[SESSION_SECRET, *session, *variable], &[]);
            }
            Claim::Matched { mark } => pen.field(Tag::ClaimTag, &[MATCHED, *mark], &[]),
            Claim::MatchedOnce { mark } => pen.field(Tag::ClaimTag, &[MATCHED_ONCE, *mark], &[]),
        }
    }
}

impl Exchange {
    // Writes the file of the exchange at the front of the buffer, and answers how many bytes it has; the rest stays.
    #[tactic(auto, using(crate::proofs::Putting::file_length))]
    pub(crate) fn write(&self, out: &mut [u8]) -> usize
        requires room { length (file_bytes (exchange_of self.now)) ≤ length out.old }
        ensures size { result ≡ length (file_bytes (exchange_of self.now)) }
        ensures bytes { out.new ≡ file_bytes (exchange_of self.now) ++ drop (length (file_bytes (exchange_of self.now))) out.old }
    {
        let mut pen = Pen { out, at: 0 };
        pen.parts(&self.atoms);
        pen.parts(&self.opening);
        pen.parts(&self.roles);
        pen.parts(&self.sessions);
        pen.parts(&self.claims);
        pen.start(Tag::EndTag, 0);
        pen.at
    }
}
