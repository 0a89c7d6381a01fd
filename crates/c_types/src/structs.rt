//! Structs and their members.

use super::name::Name;
use super::ty::Ty;
use sqlite_items::Items;
use tables::Named;

/// A member of a struct.
#[derive(Debug, Drop)]
pub struct Member {
    pub name: Name,
    pub ty: Ty,
}

impl Named for Member {
    ghost name_of = { λ member. member.name };

    fn name(&self) -> &[u8] {
        self.name.bytes()
    }
}

/// Members in order.
pub type MemberList = Items<Member>;

/// A tag, and the members of its body, where it has one.
#[derive(Debug, Drop)]
pub struct StructDef {
    pub name: Name,
    pub members: Option<MemberList>,
}

/// Structs in the order of their numbers.
pub type StructList = Items<StructDef>;
