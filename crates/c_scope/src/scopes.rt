//! The scopes around a place, and what names mean there.

ghost use Rattle.std.specs.Prelude.{◌≡◌, [], ◌∷◌, OnOk, IfOk};
ghost use Rattle.std.specs.Option.{option_copied};
ghost use Rattle.c_scope.specs.Scopes as spec;

use c_typed::Entity;
use c_types::{Name, Ty};
use sqlite_items::Items;
use std::alloc::{AllocError, Global};
use std::marker::Model;
use tables::{Named, Table};

/// What a name in scope means.
#[derive(Drop)]
pub enum Meaning {
    Variable(Entity, Ty),
    /// The one function of that name.
    Function,
    TypeName(Ty),
}

/// A name with its meaning.
#[derive(Drop)]
pub struct Binding {
    pub name: Name,
    pub meaning: Meaning,
}

impl Named for Binding {
    ghost name_of = { λ binding. binding.name };

    fn name(&self) -> &[u8] {
        self.name.bytes()
    }
}

/// The scopes around a place, as lists of names with their meanings, the innermost first.
#[derive(Drop)]
pub struct Scopes {
    alloc: Global,
    /// The innermost last.
    tables: Items<Table<Binding>>,
}

impl Model for Scopes {
    ghost use Rattle.std.specs.Prelude.{List, reverse};
    ghost use Rattle.std.specs.Coded.{coded_list};
    ghost use Rattle.c_scope.specs.declared.scopes.Binding.{Binding};
    ghost use Rattle.c_scope.specs.contracts.scopes.Binding as binding;

    ghost Value = { List (List Binding) };

    ghost coded = { coded_list (coded_list binding.the_row.coded) };

    ghost view = { λ s. reverse s.tables };
}

impl Scopes {
    /// No scopes.
    pub fn new(alloc: Global) -> Scopes
        ensures { result ≡ [] }
    {
        Scopes {
            alloc,
            tables: Items::new(alloc),
        }
    }

    /// One scope more, inside the others.
    ///
    /// # Errors
    ///
    /// `AllocError`, where no memory is left.
    pub fn open(&mut self) -> Result<(), AllocError>
        ensures { OnOk result (self.new ≡ [] ∷ self.old) }
    {
        self.tables.push(Table::new(self.alloc))
    }

    /// The innermost scope ends.
    pub fn close(&mut self)
        ensures { self.new ≡ spec.outer self.old }
    {
        let _ = self.tables.pop();
    }

    /// What the name means in the innermost scope.
    pub fn meaning_here(&self, name: &[u8]) -> Option<&Meaning>
        ensures { option_copied result ≡ spec.meaning_here (spec.innermost self.now) name.now }
    {
        let table = self.tables.as_slice().last()?;
        Some(&table.find_item(name)?.meaning)
    }

    /// What the name means: the innermost scope that has it decides. It takes time that grows with
    /// the number of scopes and the logarithm of that of names.
    pub fn meaning(&self, name: &[u8]) -> Option<&Meaning>
        ensures { option_copied result ≡ spec.meaning_of self.now name.now }
    {
        let tables = self.tables.as_slice();
        for i in (0..tables.len()).rev() {
            if let Some(binding) = tables[i].find_item(name) {
                return Some(&binding.meaning);
            }
        }
        None
    }

    /// The innermost scope gets a name. An earlier meaning of it there still counts.
    ///
    /// # Errors
    ///
    /// `AllocError`, where no memory is left.
    pub fn bind(&mut self, name: Name, meaning: Meaning) -> Result<(), AllocError>
        ensures { OnOk result (self.new ≡ spec.bound_in self.old name meaning) }
    {
        let mut table = match self.tables.pop() {
            Some(table) => table,
            None => Table::new(self.alloc),
        };
        table.push(Binding { name, meaning })?;
        self.tables.push(table)
    }
}
