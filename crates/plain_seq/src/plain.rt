//! A word at each address.
ghost use Rattle.std.specs.Prelude.{◌≡◌, IfOk, OnOk, OnErr};
ghost use Rattle.std.specs.FinMap as map;
ghost use Rattle.meaning.specs.declared.action.Action.TheVariants as act;
ghost use Rattle.machine.specs.Store.{remembered, word_at};

use address_map::AddressMap;
use std::alloc::{AllocError, Global};
use std::marker::Model;

/// Ordinary memory: the word that was last stored at each address, and 0 where none was.
#[derive(Drop)]
pub struct Plain {
    words: AddressMap<i64>,
}

impl Model for Plain {
    ghost use Rattle.std.specs.Prelude.{ℤ};
    ghost use Rattle.std.specs.Ordering.{nat_cmp};
    ghost use Rattle.std.specs.FinMap as map;
    ghost use Rattle.std.specs.Coded.{coded_ℕ, coded_ℤ};

    ghost Value = { map.FinMap nat_cmp ℤ };

    ghost coded = { map.code coded_ℕ coded_ℤ };

    ghost view = { λ p. p.words };
}

impl Plain {
    /// A memory in which nothing was stored.
    ///
    /// # Errors
    ///
    /// `AllocError`, where no memory is left.
    pub fn open(alloc: Global) -> Result<Plain, AllocError>
        ensures { IfOk result (λ p. p ≡ map.empty) }
    {
        Ok(Plain {
            words: AddressMap::new(alloc),
        })
    }

    /// The word at an address.
    pub fn load(&self, a: u32) -> i64
        ensures { result ≡ word_at self.now a }
    {
        self.words.get(a).unwrap_or(0)
    }

    /// Stores a word at an address.
    ///
    /// # Errors
    ///
    /// `AllocError`, which leaves the memory as it was.
    pub fn store(&mut self, a: u32, v: i64) -> Result<(), AllocError>
        ensures ok { OnOk result (self.new ≡ remembered self.old (act.Store a v)) }
        ensures err { OnErr result (self.new ≡ self.old) }
    {
        self.words.insert(a, v)
    }

    /// The word at an address, which becomes 1 where it was 0.
    ///
    /// # Errors
    ///
    /// `AllocError`, which leaves the memory as it was.
    pub fn try_lock(&mut self, a: u32) -> Result<i64, AllocError>
        ensures found { IfOk result (λ word. word ≡ word_at self.old a) }
        ensures ok { OnOk result (self.new ≡ remembered self.old (act.TryLock a)) }
        ensures err { OnErr result (self.new ≡ self.old) }
    {
        let word = self.load(a);
        if word == 0 {
            self.words.insert(a, 1)?;
        }
        Ok(word)
    }
}
