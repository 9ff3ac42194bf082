// Which atom stands for each variable.
ghost use Rattle.std.specs.Prelude.{◌≡◌, ℕ, ◌+◌, true, length, None, slice_index_or};
ghost use Rattle.message.specs.Filling.{fitting};

mod methods;

// The atom of the variable 80 + i, if it has one, stands at i, and is of the variable's kind.
#[derive(Clone, Copy)]
pub struct Values {
    atoms: [Option<u8>; 80],
    ghost whole: { length atoms ≡ 80 },
    ghost fit: { ((i : ℕ) → fitting (0x80 + i) (slice_index_or atoms i None) ≡ true) },
}
