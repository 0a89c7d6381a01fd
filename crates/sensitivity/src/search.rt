//! The search for structs that hold code pointers.

ghost use Rattle.std.specs.Prelude.{◌≡◌, ◌<◌, ℕ, All, IfOk, OnOk, Some, length, slice_get};
ghost use Rattle.c_types.specs.Structs.{body_of};
ghost use Rattle.sensitivity.specs.inner.Marks.{Grows, IsFollowed, IsMarked, IsMember, IsRead, IsSearch, IsStructRead};

use crate::askers::Askers;
use crate::holding::{Holding, holding_of};
use crate::marks::Marks;
use c_types::{Member, StructTable};
use std::alloc::{AllocError, Global};

/// What is known of the structs of a table.
#[derive(Drop)]
pub(crate) struct Search {
    pub(crate) marks: Marks,
    pub(crate) askers: Askers,
}

impl Search {
    /// Nothing is known.
    fn new(alloc: Global, structs: &StructTable) -> Result<Search, AllocError>
        ensures { IfOk result (λ search. IsSearch structs.now search) }
    {
        let marks = Marks::new(alloc, structs.defs().as_slice())?;
        let askers = Askers::new(alloc, structs.len())?;
        Ok(Search { marks, askers })
    }

    /// Reads a member of a struct.
    fn read_member(
        &mut self,
        structs: &StructTable,
        s: u32,
        member: &Member,
    ) -> Result<(), AllocError>
        requires search { IsSearch structs.now self.old }
        requires member { IsMember structs.now s member.now }
        ensures search { OnOk result (IsSearch structs.now self.new) }
        ensures grows { OnOk result (Grows self.old self.new) }
        ensures read { OnOk result (IsRead structs.now self.new s member.now) }
    {
        match holding_of(self.marks.of_structs.as_slice(), &member.ty) {
            Holding::Always => self.marks.mark(s)?,
            Holding::Never => (),
            Holding::AsStruct(n) => self.askers.add(n, s)?,
        }
        Ok(())
    }

    /// Reads the members of a struct.
    fn read_members(
        &mut self,
        structs: &StructTable,
        s: u32,
        members: &[Member],
    ) -> Result<(), AllocError>
        requires search { IsSearch structs.now self.old }
        requires body { body_of structs.now s ≡ Some members.now }
        ensures search { OnOk result (IsSearch structs.now self.new) }
        ensures grows { OnOk result (Grows self.old self.new) }
        ensures read { OnOk result (All (IsRead structs.now self.new s) members.now) }
    {
        for member in members {
            self.read_member(structs, s, member)?;
        }
        Ok(())
    }

    /// Reads a struct.
    fn read_struct(&mut self, structs: &StructTable, s: u32) -> Result<(), AllocError>
        requires search { IsSearch structs.now self.old }
        ensures search { OnOk result (IsSearch structs.now self.new) }
        ensures grows { OnOk result (Grows self.old self.new) }
        ensures read { OnOk result (IsStructRead structs.now self.new s) }
    {
        let Some(def) = structs.get(s) else {
            return Ok(());
        };
        if let Some(members) = &def.members {
            self.read_members(structs, s, members.as_slice())?;
        }
        Ok(())
    }

    /// What a table's members tell of its structs, each by itself.
    pub(crate) fn read(alloc: Global, structs: &StructTable) -> Result<Search, AllocError>
        ensures search { IfOk result (λ search. IsSearch structs.now search) }
        ensures read { IfOk result (λ search. (s : ℕ) → s < length structs.now
            → IsStructRead structs.now search s) }
    {
        let mut search = Search::new(alloc, structs)?;
        for s in 0..structs.len() {
            search.read_struct(structs, s)?;
        }
        Ok(search)
    }

    /// Marks what asks for a struct that was found.
    fn follow(&mut self, structs: &StructTable, n: u32) -> Result<(), AllocError>
        requires search { IsSearch structs.now self.old }
        requires marked { IsMarked self.old.marks n }
        ensures search { OnOk result (IsSearch structs.now self.new) }
        ensures grows { OnOk result (Grows self.old self.new) }
        ensures followed { OnOk result (IsFollowed self.new n) }
        ensures same { OnOk result (self.new.askers ≡ self.old.askers) }
    {
        self.marks.mark_all(self.askers.of(n))?;
        Ok(())
    }

    /// Marks what asks for structs that were found, from the first to the last. Each struct is
    /// found once.
    pub(crate) fn spread(&mut self, structs: &StructTable) -> Result<(), AllocError>
        requires search { IsSearch structs.now self.old }
        ensures search { OnOk result (IsSearch structs.now self.new) }
        ensures grows { OnOk result (Grows self.old self.new) }
        ensures followed { OnOk result ((n : ℕ) → IsMarked self.new.marks n
            → IsFollowed self.new n) }
        ensures same { OnOk result (self.new.askers ≡ self.old.askers) }
    {
        for next in 0..structs.len() {
            let Some(n) = self.found(next) else {
                return Ok(());
            };
            self.follow(structs, n)?;
        }
        Ok(())
    }

    /// The struct that was found there.
    fn found(&self, at: u32) -> Option<u32>
        ensures { result ≡ slice_get self.now.marks.found at }
    {
        Some(*self.marks.found.get(at as usize)?)
    }
}
