//! A map from addresses as the finite map that it is.
ghost use Rattle.std.specs.Prelude.{◌≡◌, OnOk, OnErr};
ghost use Rattle.std.specs.FinMap as map;

use std::alloc::{AllocError, Global};
use std::collections::BTreeMap;
use std::marker::Model;

/// A map from addresses, seen as the finite map that it is.
#[derive(Drop)]
pub struct AddressMap<V> {
    entries: BTreeMap<u32, V>,
}

impl<V> Model for AddressMap<V> {
    ghost use Rattle.std.specs.Ordering.{nat_cmp};
    ghost use Rattle.std.specs.FinMap as map;
    ghost use Rattle.std.specs.Coded.{coded_ℕ};

    ghost Value = { map.FinMap nat_cmp V };

    ghost coded = { map.code coded_ℕ V.code };

    ghost view = { λ a. map.from_entries a.entries.entries };
}

impl<V: Copy> AddressMap<V> {
    /// The map without entries.
    pub fn new(alloc: Global) -> AddressMap<V>
        ensures { result ≡ map.empty }
    {
        AddressMap {
            entries: BTreeMap::new(alloc),
        }
    }

    /// What the map has at an address, and None where it has nothing.
    pub fn get(&self, at: u32) -> Option<V>
        ensures { result ≡ map.get self.now at }
    {
        self.entries.get(&at).copied()
    }

    /// Sets what the map has at an address.
    ///
    /// # Errors
    ///
    /// `AllocError`, which leaves the map as it was.
    pub fn insert(&mut self, at: u32, value: V) -> Result<(), AllocError>
        ensures ok { OnOk result (self.new ≡ map.insert self.old at value) }
        ensures err { OnErr result (self.new ≡ self.old) }
    {
        self.entries.insert(at, value)?;
        Ok(())
    }
}
