//! The region: what a run's threads share of the safe store.
ghost use Rattle.std.specs.Prelude.{◌≡◌, ℕ, ◌+◌, ◌≤◌, ◌<◌, not, Option, IfOk, OnOk, OnErr};
ghost use Rattle.std.specs.FinMap as map;
ghost use Rattle.meaning.specs.declared.action.Action.TheVariants as act;
ghost use Rattle.machine.specs.Store.{first_slot, is_ended, new_number};
ghost use Rattle.region_seq.specs.Bounded.{Bounded, behind, new_region};

use address_map::AddressMap;
use meaning::Entry;
use std::alloc::{AllocError, Global};
use std::marker::Model;

/// The first slot that is drawn. Those before it are the threads' words and the globals'.
const FIRST_DRAWN: u64 = 1_026;

/// The safe store: what is put at each address, the slots that are drawn, the ids that are ended and the threads that
/// there are.
#[derive(Drop)]
pub struct Region {
    slots: u32,
    threads: u8,
    next: u64,
    count: u8,
    ended: AddressMap<()>,
    entries: AddressMap<Entry>,
}

impl Model for Region {
    ghost use Rattle.region_seq.specs.Bounded.{Bounded, bounded_code};

    ghost Value = { Bounded };

    ghost coded = { bounded_code };

    ghost use Rattle.std.specs.Prelude.{◌≤◌};

    ghost view = { λ r. record {
      slots = r.slots;
      threads = r.threads;
      store = record { next = r.next; ended = r.ended; count = r.count; entries = r.entries };
    } };

    ghost invariant = { λ r. (r.threads ≤ 16) × (r.count ≤ r.threads) };
}

impl Region {
    /// The store of a run with this many slots, 1,026 to 1,048,576, and at most this many threads, 1 to 16. Nothing
    /// is put or ended, and thread 0 is there.
    ///
    /// # Errors
    ///
    /// `AllocError`, where no memory is left.
    pub fn open(alloc: Global, slots: u32, threads: u8) -> Result<Region, AllocError>
        requires least_slots { 1026 ≤ slots }
        requires most_slots { slots ≤ 1048576 }
        requires some_thread { 1 ≤ threads }
        requires most_threads { threads ≤ 16 }
        ensures { IfOk result (λ r. r ≡ new_region slots threads) }
    {
        Ok(Region {
            slots,
            threads,
            next: FIRST_DRAWN,
            count: 1,
            ended: AddressMap::new(alloc),
            entries: AddressMap::new(alloc),
        })
    }

    /// Draws so many consecutive slots: the first of them, and None where that goes past the last slot. Slots that are
    /// refused are drawn all the same, so every later draw of some is refused too.
    pub fn alloc(&mut self, k: u32) -> Option<u32>
        ensures answer { result ≡ first_slot (self.old).slots (self.old).store.next k }
        ensures after { self.new ≡ behind self.old (act.Alloc k) }
    {
        let first = self.next;
        self.next = first.saturating_add(u64::from(k));
        if self.next <= u64::from(self.slots) {
            Some(first as u32)
        } else {
            None
        }
    }

    /// Ends an id: whether it wasn't ended before.
    ///
    /// # Errors
    ///
    /// `AllocError`, which leaves the store as it was.
    pub fn free(&mut self, id: u32) -> Result<bool, AllocError>
        ensures answer { IfOk result (λ live. live ≡ not (is_ended (self.old).store id)) }
        ensures after { OnOk result (self.new ≡ behind self.old (act.Free id)) }
        ensures err { OnErr result (self.new ≡ self.old) }
    {
        let live = self.look(id);
        self.ended.insert(id, ())?;
        Ok(live)
    }

    /// Whether an id isn't ended.
    pub fn look(&self, id: u32) -> bool
        ensures { result ≡ not (is_ended (self.now).store id) }
    {
        self.ended.get(id).is_none()
    }

    /// What was last put at an address, and None where nothing was.
    pub fn get(&self, a: u32) -> Option<Entry>
        ensures { result ≡ map.get (self.now).store.entries a }
    {
        self.entries.get(a)
    }

    /// Puts an entry at an address.
    ///
    /// # Errors
    ///
    /// `AllocError`, which leaves the store as it was.
    pub fn put(&mut self, a: u32, e: Entry) -> Result<(), AllocError>
        ensures ok { OnOk result (self.new ≡ behind self.old (act.Put a e)) }
        ensures err { OnErr result (self.new ≡ self.old) }
    {
        self.entries.insert(a, e)
    }

    /// The number of a new thread, and None where there are as many as there can be.
    pub fn fork(&mut self) -> Option<u8>
        ensures answer { result ≡ new_number (self.old).threads (self.old).store.count }
        ensures after { self.new ≡ behind self.old act.Fork }
    {
        if self.count == self.threads {
            return None;
        }
        let number = self.count;
        self.count += 1;
        Some(number)
    }
}
