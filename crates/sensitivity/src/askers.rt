//! Which structs ask for which.

ghost use Rattle.std.specs.Prelude.{◌≡◌, ◌<◌, ◌⊎◌, ℕ, [], IfOk, OnOk, length, slice_index_or};
ghost use Rattle.sensitivity.specs.inner.Marks.{Includes};

use sqlite_items::Items;
use std::alloc::{AllocError, Global};

/// For each struct those that hold code pointers where it does.
#[derive(Drop)]
pub(crate) struct Askers {
    pub(crate) lists: Vec<Items<u32>>,
}

impl Askers {
    /// No structs ask for any.
    pub(crate) fn new(alloc: Global, count: u32) -> Result<Askers, AllocError>
        ensures many { IfOk result (λ askers. length askers.lists.items ≡ count) }
        ensures none { IfOk result (λ askers. (n s : ℕ) → Includes askers.lists.items n s → ⊥) }
    {
        let mut lists = Vec::new(alloc);
        for _ in 0..count {
            lists.push(Items::new(alloc))?;
        }
        Ok(Askers { lists })
    }

    /// Struct `s` asks for `n`. Structs that no table has are left out.
    pub(crate) fn add(&mut self, n: u32, s: u32) -> Result<(), AllocError>
        ensures many { OnOk result (length self.new.lists.items ≡ length self.old.lists.items) }
        ensures added { OnOk result (n < length self.old.lists.items
            → Includes self.new.lists.items n s) }
        ensures kept { OnOk result ((m t : ℕ) → Includes self.old.lists.items m t
            → Includes self.new.lists.items m t) }
        ensures others { OnOk result ((m t : ℕ) → Includes self.new.lists.items m t
            → Includes self.old.lists.items m t ⊎ ((m ≡ n) × (t ≡ s))) }
    {
        if (n as usize) < self.lists.len() {
            self.lists[n as usize].push(s)?;
        }
        Ok(())
    }

    /// Those that ask for a struct.
    pub(crate) fn of(&self, n: u32) -> &[u32]
        ensures { result.now ≡ slice_index_or self.now.lists.items n [] }
    {
        match self.lists.get(n as usize) {
            Some(list) => list.as_slice(),
            None => &[],
        }
    }
}
