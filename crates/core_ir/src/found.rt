//! Structs that were found, in the order in which they were.

ghost use Rattle.std.specs.Prelude.{◌≡◌, ◌+◌, ◌<◌, ◌≤◌, ◌⊎◌, ℕ, true, false, slice_index, slice_index_or, IfSome, None};
ghost use Rattle.core_ir.specs.inner.Search.{AreFound, Extends, Includes};

/// As many as a table may have.
pub(crate) const MOST_STRUCTS: usize = 1_024;

/// Structs that were found, each once.
#[derive(Drop)]
pub(crate) struct Found {
    /// Whether it was.
    is_found: [bool; MOST_STRUCTS],
    /// The numbers of the first so many.
    numbers: [u32; MOST_STRUCTS],
    count: usize,
}

impl Found {
    /// No structs.
    pub(crate) fn new() -> Found
        ensures found { AreFound result }
        ensures none { (s : ℕ) → Includes result s → ⊥ }
        ensures empty { result.count ≡ 0 }
    {
        Found {
            is_found: [false; MOST_STRUCTS],
            numbers: [0; MOST_STRUCTS],
            count: 0,
        }
    }

    /// The number at a place, if there are more.
    pub(crate) fn get(&self, at: usize) -> Option<u32>
        requires { AreFound self.now }
        ensures some { IfSome result (λ s. (at < self.now.count)
            × (s ≡ slice_index self.now.numbers at) × Includes self.now s) }
        ensures none { result ≡ None → self.now.count ≤ at }
    {
        if at < self.count {
            Some(self.numbers[at])
        } else {
            None
        }
    }

    /// Adds a struct that wasn't found yet. Numbers that no table has are left out.
    pub(crate) fn add(&mut self, number: u32)
        requires { AreFound self.old }
        ensures found { AreFound self.new }
        ensures added { number < 1024 → Includes self.new number }
        ensures grows { Extends self.old self.new }
        ensures others { (s : ℕ) → Includes self.new s → Includes self.old s ⊎ (s ≡ number) }
    {
        let place = number as usize;
        if place < MOST_STRUCTS && !self.is_found[place] {
            self.is_found[place] = true;
            self.numbers[self.count] = number;
            self.count += 1;
        }
    }
}
