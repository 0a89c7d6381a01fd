//! The type names that earlier items declared.

ghost use Rattle.std.specs.Prelude.{◌≡◌, ℕ, List, [], ◌∷◌, ◌++◌, OnOk, OnErr};
ghost use Rattle.std.specs.BTreeSet.{contains_by};
ghost use Rattle.std.specs.Cmp.Lexicographic.{slice_cmp};
ghost use Rattle.std.specs.Ordering.{nat_cmp};
ghost use Rattle.c_readers.specs.inner.Readers.{is_type_name};

use c_types::Name;
use sqlite_items::Items;
use std::alloc::{AllocError, Global};
use std::collections::BTreeSet;
use std::marker::Model;

/// Type names, in the order of their declarations. A set of them answers whether a name is one.
#[derive(Drop)]
pub struct Names {
    alloc: Global,
    list: Items<Name>,
    set: BTreeSet<Vec<u8>>,
}

impl Model for Names {
    ghost Value = { List (List ℕ) };

    ghost view = { λ n. n.list };

    // A look-up in the set says what one in the list says.
    ghost invariant = { λ n. (x : List ℕ) → contains_by (λ key. slice_cmp nat_cmp x key.items) n.set ≡ is_type_name n.list x };
}

impl Names {
    /// No names.
    pub fn new(alloc: Global) -> Names
        ensures { result ≡ [] }
    {
        Names {
            alloc,
            list: Items::new(alloc),
            set: BTreeSet::new(alloc),
        }
    }

    /// Adds a name, in time that grows with the logarithm of how many there are.
    ///
    /// # Errors
    ///
    /// `AllocError`, where no memory is left. The names are then as they were.
    pub fn push(&mut self, name: Name) -> Result<(), AllocError>
        ensures ok { OnOk result (self.new ≡ self.old ++ name ∷ []) }
        ensures err { OnErr result (self.new ≡ self.old) }
    {
        let key = Vec::from_slice(self.alloc, name.bytes())?;
        self.list.push(name)?;
        if let Err(full) = self.set.insert(key) {
            let _ = self.list.pop();
            return Err(full.into());
        }
        Ok(())
    }

    /// Whether this is one of the names.
    pub fn contains(&self, name: &[u8]) -> bool
        ensures { result ≡ is_type_name self.now name.now }
    {
        self.set.contains(name)
    }
}
