ghost use Rattle.std.specs.Prelude.{◌≡◌, ◌-◌, ◌<◌, ◌≤◌, [], ◌∷◌, ◌++◌, length, drop, replicate, MatchResult};
ghost use Rattle.std.specs.Cmp.{on_per};
ghost use Rattle.std.specs.Cmp.Lexicographic.{pointwise, lists_per};
ghost use Rattle.std.specs.Ordering.{on};
ghost use Rattle.message.specs.Rows.{items_in, rest_of};

use crate::row::{Full, Row};

impl<T: Copy, const N: usize> Row<T, N> {
    // No item; the memory holds the filler.
    pub fn new(filler: T) -> Row<T, N>
        ensures empty { items_in result ≡ [] }
        ensures rest { rest_of result ≡ replicate N filler }
    {
        Row {
            memory: [filler; N],
            count: 0,
        }
    }

    // The row that has these items; refused where there are more than N. The rest of the memory holds the filler.
    pub fn from_slice(filler: T, items: &[T]) -> Result<Row<T, N>, Full>
        ensures cases { MatchResult result (λ row. (length items.now ≤ N) × (items_in row ≡ items.now) × (rest_of row ≡ replicate (N - length items.now) filler)) (λ _. N < length items.now) }
    {
        if items.len() > N {
            return Err(Full);
        }
        let mut memory = [filler; N];
        memory[..items.len()].copy_from_slice(items);
        Ok(Row {
            memory,
            count: items.len(),
        })
    }

    // The items in their order.
    pub fn as_slice(&self) -> &[T]
        ensures value { result.now ≡ items_in self.now }
        ensures few { length result.now ≤ N }
    {
        &self.memory[..self.count]
    }

    // The whole memory: the items, and then what fills the rest.
    pub fn memory(&self) -> &[T]
        ensures value { result.now ≡ items_in self.now ++ rest_of self.now }
    {
        self.memory.as_slice()
    }

    // One more item at the end; refused, with nothing changed, where there are N.
    pub fn push(&mut self, item: T) -> Result<(), Full>
        ensures pushed { MatchResult result (λ _. (length (items_in self.old) < N) × (items_in self.new ≡ items_in self.old ++ item ∷ [])) (λ _. (length (items_in self.old) ≡ N) × (self.new ≡ self.old)) }
        ensures rest { MatchResult result (λ _. rest_of self.new ≡ drop 1 (rest_of self.old)) (λ _. self.new ≡ self.old) }
    {
        if self.count == N {
            return Err(Full);
        }
        self.memory[self.count] = item;
        self.count += 1;
        Ok(())
    }
}

// Rows are equal where their items are, whatever fills the rest of their memory.
impl<T: PartialEq, const N: usize> PartialEq for Row<T, N> {
    ghost eq = { on items_in (pointwise T.eq) };

    ghost laws = { on_per items_in (lists_per T.laws) };

    fn eq(&self, other: &Row<T, N>) -> bool {
        self.memory[..self.count] == other.memory[..other.count]
    }
}
