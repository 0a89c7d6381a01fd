//! The table of structs.

ghost use Rattle.std.specs.Prelude.{◌≡◌, ◌<◌, ◌↔◌, [], None, length, slice_get, unwrap_or, IsTrue, IfOk, OnOk, OnErr};
ghost use Rattle.std.specs.Option.{option_copied};
ghost use Rattle.c_types.specs.Structs.{members_of, with_tag, with_body, struct_named, member_named};
ghost use Rattle.c_types.specs.Units.{units_of, offset_of, limited};
ghost use Rattle.c_types.specs.Sound as spec;
ghost use Rattle.c_types.specs.Sound.{CanDefine, IsSound};
ghost use Rattle.c_types.specs.Theorems.{UnitsAreSums};

use crate::copies::{copy_defs, copy_layouts, copy_names};
use crate::error::LayoutRefusal;
use crate::layout::{Layout, capped_units, layout_at, layout_of};
use crate::name::{Name, copy_name};
use crate::named_structs::names_below;
use crate::structs::{Member, MemberList, StructDef, StructList};
use crate::ty::Ty;
use sqlite_items::Items;
use std::alloc::{AllocError, Global};
use std::marker::Model;
use tables::Table;

/// The most units that a type may have.
const MOST_UNITS: u64 = 65_536;

/// The structs of a source by their numbers. The members of each body have units that aren't
/// refused and name structs of the table, and no struct contains itself.
#[derive(Debug, Drop)]
pub struct StructTable {
    alloc: Global,
    defs: StructList,
    tags: Table<Name>,
    layouts: Items<Option<Layout>>,
}

impl Model for StructTable {
    ghost use Rattle.std.specs.Prelude.{List};
    ghost use Rattle.std.specs.Coded.{coded_list};
    ghost use Rattle.c_types.specs.declared.structs.StructDef.{StructDef};
    ghost use Rattle.c_types.specs.contracts.structs.StructDef as def;
    ghost use Rattle.c_types.specs.inner.Layouts.{IsLaidOut};

    ghost Value = { List StructDef };

    ghost coded = { coded_list def.the_row.coded };

    ghost view = { λ t. t.defs };

    // What is stored is what the definitions say.
    ghost invariant = { λ t. IsLaidOut t.defs t.tags t.layouts };
}

/// The units, unless they are more than a type may have.
fn within_limit(units: u64) -> Result<u32, LayoutRefusal>
    ensures { result ≡ limited (Ok units) }
{
    if units > MOST_UNITS {
        return Err(LayoutRefusal::TooLarge);
    }
    Ok(units as u32)
}

impl StructTable {
    /// No structs.
    pub fn new(alloc: Global) -> StructTable
        ensures { result ≡ [] }
    {
        StructTable {
            alloc,
            defs: Items::new(alloc),
            tags: Table::new(alloc),
            layouts: Items::new(alloc),
        }
    }

    /// Reads the table, which tells what holds of each.
    pub(crate) fn keep_laws(&self)
        ensures sound { IsSound self.now }
        ensures sums { UnitsAreSums self.now }
    {
        let _defs = &self.defs;
    }

    /// How many structs there are.
    pub fn len(&self) -> u32
        ensures { result ≡ length self.now }
    {
        self.defs.len() as u32
    }

    /// Whether there are none.
    pub fn is_empty(&self) -> bool
        ensures { IsTrue result ↔ (self.now ≡ []) }
    {
        self.defs.is_empty()
    }

    /// All structs, in the order of their numbers.
    pub fn defs(&self) -> &StructList
        ensures { result.now ≡ self.now }
    {
        &self.defs
    }

    /// The struct of this number, and none exactly where the number isn't below that of structs.
    pub fn get(&self, s: u32) -> Option<&StructDef>
        ensures { option_copied result ≡ slice_get self.now s }
    {
        self.defs.get(s as usize)
    }

    /// The number of the first struct with this tag.
    pub fn find(&self, tag: &[u8]) -> Option<u32>
        ensures { result ≡ struct_named self.now tag.now }
    {
        Some(self.tags.find(tag)? as u32)
    }

    /// The number of the first member with this name in a struct that has a body.
    pub fn find_member(&self, s: u32, name: &[u8]) -> Option<u32>
        ensures { result ≡ member_named self.now s name.now }
    {
        Some(layout_at(self.layouts.as_slice(), s)?.names.find(name)? as u32)
    }

    /// Adds a struct without a body, and tells its number.
    ///
    /// # Errors
    ///
    /// `AllocError`, where no memory is left. The table is then as it was.
    pub fn declare(&mut self, tag: Name) -> Result<u32, AllocError>
        ensures number { IfOk result (λ s. s ≡ length self.old) }
        ensures ok { OnOk result (self.new ≡ with_tag self.old tag) }
        ensures err { OnErr result (self.new ≡ self.old) }
    {
        let number = self.defs.len();
        if number >= u32::MAX as usize {
            return Err(AllocError);
        }
        let name = copy_name(self.alloc, &tag)?;
        self.layouts.push(None)?;
        let members = None;
        if let Err(full) = self.defs.push(StructDef { name, members }) {
            let _ = self.layouts.pop();
            return Err(full);
        }
        if let Err(full) = self.tags.push(tag) {
            let _ = self.defs.pop();
            let _ = self.layouts.pop();
            return Err(full);
        }
        Ok(number as u32)
    }

    /// Whether a member may have this type: its units aren't refused, and each struct that it names
    /// is of the table.
    #[tactic(auto, unfolding(crate::specs::Sound::is_member_type, crate::specs::Units::has_units))]
    pub fn is_member_type(&self, ty: &Ty) -> bool
        ensures { result ≡ spec.is_member_type self.now ty.now }
    {
        self.units(ty).is_ok() && names_below(self.len(), ty)
    }

    /// Whether each of these members has such a type.
    fn are_members(&self, members: &[Member]) -> bool
        ensures { result ≡ spec.are_members self.now members.now }
    {
        for member in members {
            if !self.is_member_type(&member.ty) {
                return false;
            }
        }
        true
    }

    /// Whether `define` may give this struct these members.
    pub fn can_define(&self, s: u32, members: &MemberList) -> bool
        ensures { IsTrue result ↔ CanDefine self.now s members.now }
    {
        match self.get(s) {
            Some(def) => def.members.is_none() && self.are_members(members.as_slice()),
            None => false,
        }
    }

    /// Gives a struct its body.
    ///
    /// # Errors
    ///
    /// `AllocError`, where no memory is left. The table is then as it was.
    pub fn define(&mut self, s: u32, members: MemberList) -> Result<(), AllocError>
        requires { CanDefine self.old s members }
        ensures ok { OnOk result (self.new ≡ with_body self.old s members) }
        ensures err { OnErr result (self.new ≡ self.old) }
    {
        if members.len() > u32::MAX as usize {
            return Err(AllocError);
        }
        let layout = layout_of(self.alloc, self.layouts.as_slice(), members.as_slice())?;
        let name = copy_name(self.alloc, &self.defs.as_slice()[s as usize].name)?;
        let members = Some(members);
        self.defs.set(s as usize, StructDef { name, members });
        self.layouts.set(s as usize, Some(layout));
        Ok(())
    }

    /// The units of a type: 1 of `int`, `char` and pointers, the sum of its members' of a struct,
    /// the product of an array.
    ///
    /// # Errors
    ///
    /// `Incomplete`, exactly for `void`, a function, a struct without a body, and an array or a
    /// struct with such a part; else `TooLarge`, exactly above 65,536.
    #[tactic(auto, unfolding(crate::specs::Units::units_of))]
    pub fn units(&self, ty: &Ty) -> Result<u32, LayoutRefusal>
        ensures { result ≡ units_of self.now ty.now }
    {
        match capped_units(self.layouts.as_slice(), ty) {
            Some(units) => within_limit(units),
            None => Err(LayoutRefusal::Incomplete),
        }
    }

    /// The sum of the units of the members before a member that exists.
    ///
    /// # Errors
    ///
    /// `TooLarge`, exactly where it is above 65,536. No earlier member is refused, since each
    /// member of a table has units.
    pub fn offset(&self, s: u32, member: u32) -> Result<u32, LayoutRefusal>
        requires { member < length (members_of self.now s) }
        ensures { result ≡ offset_of self.now s member }
    {
        let Some(layout) = layout_at(self.layouts.as_slice(), s) else {
            unreachable!()
        };
        let Some(units) = layout.offsets.get(member as usize) else {
            unreachable!()
        };
        within_limit(*units)
    }
}

/// A copy that equals its source. It shares what the types in it point to.
///
/// # Errors
///
/// `AllocError`, where no memory is left.
pub fn copy_table(alloc: Global, table: &StructTable) -> Result<StructTable, AllocError>
    ensures { IfOk result (λ copy. copy ≡ table.now) }
{
    Ok(StructTable {
        alloc,
        defs: copy_defs(alloc, table.defs.as_slice())?,
        tags: copy_names(alloc, table.tags.as_slice())?,
        layouts: copy_layouts(alloc, table.layouts.as_slice())?,
    })
}
