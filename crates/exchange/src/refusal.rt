// A file that was refused.
use message::stop::Stop;

// Why, and how many bytes stand before the field at which it was found.
#[derive(Clone, Copy, Debug)]
pub struct Refusal {
    pub stop: Stop,
    pub place: usize,
}
