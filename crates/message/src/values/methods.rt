ghost use Rattle.std.specs.Prelude.{◌≡◌, ℕ, ◌-◌, ◌<◌, true, false, Some, None, MatchOption};
ghost use Rattle.message.specs.Bytes.{is_variable};
ghost use Rattle.message.specs.Filling.{of_kind, fitting};
ghost use Rattle.message.specs.Values.{value_in};

use crate::kind::fits_kind;
use crate::reader::is_variable;
use crate::values::Values;

// The place of a variable's value; nothing where the byte is no variable.
fn place_of(variable: u8) -> Option<usize>
    ensures place { MatchOption result (is_variable variable ≡ false) (λ place. (is_variable variable ≡ true) × (place ≡ variable - 0x80) × (place < 80)) }
{
    if !is_variable(variable) {
        return None;
    }
    Some(usize::from(variable - 0x80))
}

impl Values {
    // No variable has a value.
    pub fn none() -> Values
        ensures empty { (v : ℕ) → value_in result v ≡ None }
    {
        Values { atoms: [None; 80] }
    }

    // The value of `variable`, if it has one.
    pub fn value(&self, variable: u8) -> Option<u8>
        ensures value { result ≡ value_in self.now variable }
        ensures fits { fitting variable result ≡ true }
    {
        self.atoms[place_of(variable)?]
    }

    // Gives `variable` the value `atom`; refused, with nothing changed, where the atom is not of the variable's kind. The
    // answer is that test, and names no stop: its callers have stops of their own.
    pub fn bind(&mut self, variable: u8, atom: u8) -> bool
        ensures answer { result ≡ of_kind variable atom }
        ensures bound { result ≡ true → value_in self.new variable ≡ Some atom }
        ensures others { (v : ℕ) → (v ≡ variable → ⊥) → value_in self.new v ≡ value_in self.old v }
        ensures refused { result ≡ false → self.new ≡ self.old }
    {
        match place_of(variable) {
            Some(place) if fits_kind(variable, atom) => {
                self.atoms[place] = Some(atom);
                true
            }
            _ => false,
        }
    }

    // Takes the value of `variable` away.
    pub fn unbind(&mut self, variable: u8)
        ensures gone { value_in self.new variable ≡ None }
        ensures others { (v : ℕ) → (v ≡ variable → ⊥) → value_in self.new v ≡ value_in self.old v }
        ensures no_variable { is_variable variable ≡ false → self.new ≡ self.old }
    {
        if let Some(place) = place_of(variable) {
            self.atoms[place] = None;
        }
    }
}
