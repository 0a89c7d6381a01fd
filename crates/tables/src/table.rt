ghost use Rattle.std.specs.Prelude.{◌≡◌, ◌<◌, ◌↔◌, [], ◌∷◌, ◌++◌, List, ℕ, IsTrue, IfSome, OnOk, OnErr, Some, length, slice_get, slice_set};
ghost use Rattle.std.specs.Option.{option_copied};
ghost use Rattle.tables.specs.Places.{place_of, first_named};

use sqlite_items::Items;
use std::alloc::{AllocError, Global};
use std::collections::BTreeMap;
use std::marker::Model;

/// A thing with a name.
pub trait Named {
    /// The bytes of its name.
    ghost name_of: { Self → List ℕ };

    /// The bytes of its name.
    fn name(&self) -> &[u8]
        ensures { result.now ≡ name_of self.now };
}

/// Things in order, each found by its name in time that grows with the logarithm of their number.
#[derive(Debug, Drop)]
pub struct Table<T: Named> {
    alloc: Global,
    items: Items<T>,
    /// The place of the first thing of each name.
    places: BTreeMap<Vec<u8>, usize>,
}

impl<T: Named> Model for Table<T> {
    ghost use Rattle.std.specs.Prelude.{◌≡◌, List, ℕ};
    ghost use Rattle.std.specs.Coded.{coded_list};
    ghost use Rattle.std.specs.BTreeMap.{get_by};
    ghost use Rattle.std.specs.Cmp.Lexicographic.{slice_cmp};
    ghost use Rattle.std.specs.Ordering.{nat_cmp};
    ghost use Rattle.tables.specs.Places.{place_of};

    ghost Value = { List T };

    ghost coded = { coded_list T.code };

    ghost view = { λ t. t.items };

    // A look-up in the map says what one in the list says.
    ghost invariant = { λ t. (x : List ℕ)
        → get_by (λ key. slice_cmp nat_cmp x key.items) t.places ≡ place_of T.name_of t.items x };
}

impl<T: Named + Drop> Table<T> {
    /// No things.
    pub fn new(alloc: Global) -> Table<T>
        ensures { result ≡ [] }
    {
        Table {
            alloc,
            items: Items::new(alloc),
            places: BTreeMap::new(alloc),
        }
    }

    /// How many things there are.
    pub fn len(&self) -> usize
        ensures { result ≡ length self.now }
    {
        self.items.len()
    }

    /// Whether there are none.
    pub fn is_empty(&self) -> bool
        ensures { IsTrue result ↔ (self.now ≡ []) }
    {
        self.items.is_empty()
    }

    /// All of them.
    pub fn as_slice(&self) -> &[T]
        ensures { result.now ≡ self.now }
    {
        self.items.as_slice()
    }

    /// The thing at this place, and none exactly where the place isn't below their number.
    pub fn get(&self, place: usize) -> Option<&T>
        ensures { option_copied result ≡ slice_get self.now place }
    {
        self.items.get(place)
    }

    /// The place of the first thing with this name.
    pub fn find(&self, name: &[u8]) -> Option<usize>
        ensures place { result ≡ place_of T.name_of self.now name.now }
        ensures within { IfSome result (λ place. place < length self.now) }
    {
        self.places.get(name).copied()
    }

    /// The first thing with this name.
    pub fn find_item(&self, name: &[u8]) -> Option<&T>
        ensures { option_copied result ≡ first_named T.name_of self.now name.now }
    {
        self.items.get(self.find(name)?)
    }

    /// Adds a thing behind the others. An earlier one of its name is still the one that is found.
    ///
    /// # Errors
    ///
    /// `AllocError`, where no memory is left. The table is then as it was.
    pub fn push(&mut self, item: T) -> Result<(), AllocError>
        ensures ok { OnOk result (self.new ≡ self.old ++ item ∷ []) }
        ensures err { OnErr result (self.new ≡ self.old) }
    {
        if self.places.contains_key(item.name()) {
            self.items.push(item)?;
            return Ok(());
        }
        let key = Vec::from_slice(self.alloc, item.name())?;
        let place = self.items.len();
        self.items.push(item)?;
        if let Err(full) = self.places.insert(key, place) {
            let _ = self.items.pop();
            return Err(full.into());
        }
        Ok(())
    }

    /// Puts another thing of the same name in the place of one.
    pub fn replace(&mut self, place: usize, item: T)
        requires within { place < length self.old }
        requires name { (earlier : T) → slice_get self.old place ≡ Some earlier → T.name_of item ≡ T.name_of earlier }
        ensures { self.new ≡ slice_set self.old place item }
    {
        self.items.set(place, item);
    }

    /// All of them, without their names' places.
    pub fn into_items(self) -> Items<T>
        ensures { result ≡ self }
    {
        self.items
    }
}
