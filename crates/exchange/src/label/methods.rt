ghost use Rattle.std.specs.Prelude.{◌≡◌, ◌≤◌, true, false, length, MatchResult};
ghost use Rattle.std.specs.List.{list_all};
ghost use Rattle.message.specs.declared.stop.Stop.TheVariants.{BadLabel};
ghost use Rattle.exchange.specs.Labels.{label_text};
ghost use Rattle.exchange.specs.Rules.{is_label_byte};

use crate::label::Label;
use message::row::Row;
use message::stop::Stop;

// Whether the byte may stand in a label.
fn is_label_byte(byte: u8) -> bool
    ensures value { result ≡ is_label_byte byte }
{
    matches!(byte, 0x21..=0x7E)
}

// Whether each byte may stand in a label.
fn is_label(bytes: &[u8]) -> bool
    ensures value { result ≡ list_all is_label_byte bytes.now }
{
    bytes.iter().all(|byte| is_label_byte(*byte))
}

impl Label {
    // The label that the bytes are; refused where one of them may not stand in a label.
    pub(crate) fn read(label: &[u8]) -> Result<Label, Stop>
        requires short { length label.now ≤ 12 }
        ensures value { MatchResult result (λ l. (list_all is_label_byte label.now ≡ true) × (label_text l ≡ label.now)) (λ stop. (list_all is_label_byte label.now ≡ false) × (stop ≡ BadLabel)) }
    {
        if !is_label(label) {
            return Err(Stop::BadLabel);
        }
        let bytes = Row::from_slice(0, label).unwrap();
        Ok(Label { bytes })
    }

    // The bytes of the label.
    pub fn bytes(&self) -> &[u8]
        ensures value { result.now ≡ label_text self.now }
    {
        self.bytes.as_slice()
    }
}
