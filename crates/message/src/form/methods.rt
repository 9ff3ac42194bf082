ghost use Rattle.std.specs.Prelude.{◌≡◌, ◌≤◌, true, false, length, MatchResult, ◌≢◌};
ghost use Rattle.std.specs.Str.{bytes_eq};
ghost use Rattle.message.specs.declared.stop.Stop.TheVariants.{NotOneForm};
ghost use Rattle.message.specs.Forms.{text, OneForm};
ghost use Rattle.message.specs.Trees.{Tree, write, is_form, Fits, OneReading};

use crate::form::Form;
use crate::reader::form_length;
use crate::row::Row;
use crate::stop::Stop;

// How many bytes a form may have.
const LONGEST_FORM: usize = 24;

impl Form {
    // The form that all the bytes are; refused where they are not one form of 1 to 24 bytes.
    #[tactic(auto, using(crate::proofs::OneReading::one_reading, crate::proofs::OneValue::one_form))]
    pub fn read(bytes: &[u8]) -> Result<Form, Stop>
        ensures value { MatchResult result (λ form. (is_form bytes.now ≡ true) × (text form ≡ bytes.now)) (λ stop. (is_form bytes.now ≡ false) × (stop ≡ NotOneForm)) }
        ensures written { MatchResult result (λ _. (t : Tree) × Fits t × (write t ≡ bytes.now)) (λ _. (t : Tree) → Fits t → write t ≢ bytes.now) }
        ensures one_reading { OneReading }
        ensures one_value { OneForm }
        ensures equal { (a b : Form) → ⟦<Form as PartialEq>⟧.eq a b ≡ bytes_eq (text a) (text b) }
    {
        if bytes.len() > LONGEST_FORM {
            return Err(Stop::NotOneForm);
        }
        match form_length(bytes) {
            Some(n) if n == bytes.len() => {
                let bytes = Row::from_slice(0, bytes).unwrap();
                Ok(Form { bytes })
            }
            _ => Err(Stop::NotOneForm),
        }
    }

    // The bytes of the form.
    pub fn bytes(&self) -> &[u8]
        ensures value { result.now ≡ text self.now }
    {
        self.bytes.as_slice()
    }
}
