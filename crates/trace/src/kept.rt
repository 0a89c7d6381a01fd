//! Records of which each is kept once for the times that it comes lately, since most runs repeat themselves.
ghost use Rattle.std.specs.Prelude.{◌≡◌, ◌+◌, ◌^◌, ◌≤◌, ◌<◌, [], ◌∷◌, ◌++◌, length, slice_get, Option, IfSome, OnOk};

use super::hash::{HASHES, hash_of};
use meaning::Record;
use std::alloc::{AllocError, Global};
use std::marker::Model;

/// Records in order, and room for further ones.
#[derive(Drop)]
pub(crate) struct KeptRecords {
    /// The records that differ, and again those that came when another with their hash had been kept.
    kept: Vec<Record>,
    /// For each record in order, the place where it is kept.
    places: Vec<usize>,
    /// For each hash, the place where a record with it was last kept.
    recent: [usize; HASHES],
}

impl Model for KeptRecords {
    ghost use Rattle.std.specs.Prelude.{◌-◌, min, vec_capacity, vec_len};
    ghost use Rattle.trace.specs.inner.Kept.{RecordsView, records_code, records_at, ArePlaces};

    ghost Value = { RecordsView };

    ghost coded = { records_code };

    ghost view = { λ r. record {
      records = records_at r.kept.items r.places.items;
      spare = min (vec_capacity r.kept - vec_len r.kept) (vec_capacity r.places - vec_len r.places);
    } };

    ghost invariant = { λ r. ArePlaces r.kept.items r.places.items };
}

impl KeptRecords {
    /// No records.
    pub(crate) fn new(alloc: Global) -> KeptRecords
        ensures { (result).records ≡ [] }
    {
        KeptRecords {
            kept: Vec::new(alloc),
            places: Vec::new(alloc),
            recent: [0; HASHES],
        }
    }

    /// Makes room for so many further records.
    pub(crate) fn reserve(&mut self, n: usize) -> Result<(), AllocError>
        ensures records { (self.new).records ≡ (self.old).records }
        ensures spare { OnOk result (n ≤ (self.new).spare) }
    {
        self.kept.reserve(n)?;
        self.places.reserve(n)
    }

    /// Adds a record, which is kept unless it equals the one with its hash that was last kept. It isn't inlined, so that
    /// the path of steps behind steps stays small where records are pushed.
    #[inline(never)]
    pub(crate) fn push(&mut self, item: &Record)
        requires { 1 ≤ (self.old).spare }
        ensures records { (self.new).records ≡ (self.old).records ++ item.now ∷ [] }
        ensures spare { (self.old).spare ≤ (self.new).spare + 1 }
    {
        let hash = hash_of(item);
        match equal_at(self.kept.as_slice(), self.recent[hash], item) {
            Some(place) => self.places.push_reserved(place),
            None => {
                let place = self.kept.len();
                self.kept.push_reserved(*item);
                self.recent[hash] = place;
                self.places.push_reserved(place);
            }
        }
    }

    /// How many records there are.
    pub(crate) fn len(&self) -> usize
        ensures number { result ≡ length (self.now).records }
        ensures bound { result < 2 ^ 63 }
    {
        self.places.len()
    }

    /// The record of this number, from 0.
    pub(crate) fn at(&self, i: usize) -> &Record
        requires { i < length (self.now).records }
        ensures { slice_get (self.now).records i ≡ Option.Some result.now }
    {
        &self.kept[self.places[i]]
    }
}

/// This place, if the record that is kept there equals this one.
fn equal_at(kept: &[Record], place: usize, item: &Record) -> Option<usize>
    ensures { IfSome result (λ p. slice_get kept.now p ≡ Option.Some item.now) }
{
    let found = kept.get(place)?;
    if *found == *item { Some(place) } else { None }
}
