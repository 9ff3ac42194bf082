// What is printed of a file.
ghost use Rattle.std.specs.Prelude.{◌≡◌, ◌≤◌, length, IfOk, IfSome, Some};
ghost use Rattle.std.specs.String.{string_bytes};
ghost use Rattle.exchange.specs.Checks.{refused};
ghost use Rattle.exchange.specs.Exchanges.{Exchange as Model};
ghost use Rattle.exchange.specs.Files.{file_bytes};
ghost use Rattle.exchange.specs.Stores.{held};
ghost use Rattle.exchange.specs.Views.{exchange_of};
ghost use Rattle.exchange_show.specs.Report.{end_line, accepted_text, outcome_text, report_text};

use exchange::exchange::Exchange;
use exchange::refusal::Refusal;
use exchange::store::Store;
use listing::exchanges::put_listing;
use std::alloc::{AllocError, Global};

// The lines for a file. It fails only for want of memory.
pub fn report(heap: Global, file: &[u8]) -> Result<Vec<u8>, AllocError>
    ensures text { IfOk result (λ v. v.items ≡ report_text file.now) }
{
    let mut store = Store::new(heap)?;
    match store.load(file) {
        Ok(()) => match store.exchange() {
            Some(exchange) => show_exchange(heap, exchange, written_size(&store, file)),
            None => unreachable!(),
        },
        Err(refusal) => show_refusal(heap, refusal),
    }
}

// The line of a refusal: its number, and the place in the file.
fn show_refusal(heap: Global, refusal: Refusal) -> Result<Vec<u8>, AllocError>
    ensures text { IfOk result (λ v. v.items ≡ outcome_text (refused refusal.stop refusal.place)) }
{
    let Refusal { stop, place } = refusal;
    let line = format!(in heap; "refused {} at {place}\n", stop.number())?;
    Ok(line.into_bytes())
}

// The listing of an exchange and the length of its file; none where the file that was read is another.
fn show_exchange(
    heap: Global,
    exchange: &Exchange,
    size: Option<usize>,
) -> Result<Vec<u8>, AllocError>
    ensures text { IfOk result (λ v. v.items ≡ accepted_text (exchange_of exchange.now) size) }
{
    let mut text = Vec::from_slice(heap, b"accepted\n")?;
    put_listing(&mut text, exchange)?;
    text.extend_from_slice(end_line(heap, size)?.as_bytes())?;
    Ok(text)
}

// The last line.
fn end_line(heap: Global, size: Option<usize>) -> Result<String, AllocError>
    ensures text { IfOk result (λ s. string_bytes s ≡ end_line size) }
{
    match size {
        Some(n) => format!(in heap; "file of {n} bytes\n"),
        None => String::from_str(heap, "file differs\n"),
    }
}

// How many bytes the store writes, where they are those of the file.
fn written_size(store: &Store, file: &[u8]) -> Option<usize>
    ensures same { (x : Model) → held store.now ≡ Some x → file_bytes x ≡ file.now → length file.now ≤ 8192 → result ≡ Some (length (file_bytes x)) }
    ensures only { IfSome result (λ n. (x : Model) × (held store.now ≡ Some x) × (file_bytes x ≡ file.now) × (n ≡ length (file_bytes x))) }
{
    let mut written = [0; 8192];
    let n = store.write(&mut written).ok()?;
    (&written[..n] == file).then_some(n)
}
