// Reading a whole file.
ghost use Rattle.std.specs.Prelude.{◌≡◌, suc, ◌&&◌, length, None, nat_le};
ghost use Rattle.exchange.specs.Answers.{outcome_of};
ghost use Rattle.exchange.specs.Checks.{blank, is_end, reading};
ghost use Rattle.exchange.specs.Views.{exchange_of};

use crate::exchange::Exchange;
use crate::refusal::Refusal;
use crate::tag::Tag;
use message::stop::Stop;

// Whether the last field was the end and nothing follows it.
fn is_done(last: Option<Tag>, at: usize, len: usize) -> bool
    ensures value { result ≡ (is_end last && nat_le len at) }
{
    last == Some(Tag::EndTag) && len <= at
}

// Reads the fields of the file, one after the other, into an exchange that has nothing yet.
pub(crate) fn read_fields(draft: &mut Exchange, file: &[u8]) -> Result<(), Refusal>
    requires empty { exchange_of draft.old ≡ blank }
    ensures outcome { outcome_of result (exchange_of draft.new) ≡ reading (suc (length file.now)) file.now 0 None blank }
{
    // where the next field begins, which a refusal names
    let mut at = 0;
    let mut last = None;
    while !is_done(last, at, file.len()) {
        let (tag, size) = draft
            .read_field(last, &file[at..])
            .map_err(|stop| Refusal { stop, place: at })?;
        last = Some(tag);
        at += size;
    }
    Ok(())
}
