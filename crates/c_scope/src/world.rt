//! What is known at a place of the walk.

ghost use Rattle.std.specs.Prelude.{◌≡◌, IfOk, MatchResult};
ghost use Rattle.c_scope.specs.Scopes as spec;
ghost use Rattle.c_scope.specs.Walks.{Walks};
ghost use Rattle.c_scope.specs.declared.failure.Failure.TheVariants as failed;

use crate::failure::Failure;
use crate::scopes::{Meaning, Scopes};
use c_typed::Local;
use c_types::{FnTy, Name, StructTable, copy_name};
use shared::Shared;
use sqlite_items::Items;
use std::alloc::{AllocError, Global};
use tables::{Named, Table};

/// A function that was declared. No built-in is one.
#[derive(Drop)]
pub struct KnownFunction {
    pub name: Name,
    pub ty: Shared<FnTy>,
    /// The item of its first declaration.
    pub first: u32,
    /// Its name stands in an expression.
    pub is_used: bool,
    pub is_defined: bool,
}

impl Named for KnownFunction {
    ghost name_of = { λ function. function.name };

    fn name(&self) -> &[u8] {
        self.name.bytes()
    }
}

/// What is known at a place of the walk.
#[derive(Drop)]
pub struct World {
    /// The number of the item that is walked.
    pub item: u32,
    /// In order of the tags' first appearance.
    pub structs: StructTable,
    /// In order of their first declarations.
    pub functions: Table<KnownFunction>,
    /// The scopes around, the innermost first.
    pub scopes: Scopes,
    /// How many global variables were declared.
    pub globals: u32,
    /// The bytes of each string object.
    pub strings: Items<Items<u8>>,
    /// The parameters and variables of the function that is walked.
    pub locals: Items<Local>,
}

impl World {
    /// What is known before the first item: the file's scope, without names.
    ///
    /// # Errors
    ///
    /// `AllocError`, where no memory is left.
    pub fn new(alloc: Global) -> Result<World, AllocError>
        ensures { IfOk result (λ world. world ≡ spec.empty) }
    {
        let mut scopes = Scopes::new(alloc);
        scopes.open()?;
        Ok(World {
            item: 0,
            structs: StructTable::new(alloc),
            functions: Table::new(alloc),
            scopes,
            globals: 0,
            strings: Items::new(alloc),
            locals: Items::new(alloc),
        })
    }

    /// One scope more, inside the others.
    ///
    /// # Errors
    ///
    /// `Memory`, where no memory is left.
    #[tactic(auto, unfolding(crate::specs::Scopes::enter))]
    pub fn enter(&mut self) -> Result<(), Failure>
        ensures { Walks (spec.enter self.old) result self.new }
    {
        self.scopes.open()?;
        Ok(())
    }

    /// The innermost scope ends.
    #[tactic(auto, unfolding(crate::specs::Scopes::leave))]
    pub fn leave(&mut self) -> Result<(), Failure>
        ensures { Walks (spec.leave self.old) result self.new }
    {
        self.scopes.close();
        Ok(())
    }

    /// The innermost scope gets a name.
    ///
    /// # Errors
    ///
    /// `Memory`, where no memory is left.
    #[tactic(auto, unfolding(crate::specs::Scopes::bind))]
    pub fn bind(&mut self, alloc: Global, name: &Name, meaning: Meaning) -> Result<(), Failure>
        ensures { Walks (spec.bind name.now meaning self.old) result self.new }
    {
        self.scopes.bind(copy_name(alloc, name)?, meaning)?;
        Ok(())
    }
}

/// A number of things that are in memory.
///
/// # Errors
///
/// `Memory`, where they are too many to be counted.
pub fn count(n: usize) -> Result<u32, Failure>
    ensures { MatchResult result (λ counted. counted ≡ n) (λ failure. failure ≡ failed.Memory) }
{
    if n > u32::MAX as usize {
        return Err(Failure::Memory);
    }
    Ok(n as u32)
}
