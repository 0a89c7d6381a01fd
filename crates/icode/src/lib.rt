//! Code: what stands beside the instruction at each of its places, and whether code is valid.
#![tactic(auto)]

mod limits;
mod locals;
mod marked;
mod range;
mod says;
mod site;
mod sites;
mod theorems;
mod touches;
mod validity;
mod where_read;

pub use locals::units_of_safe;
pub use machine::{
    Code, CodeFunction, CodeFunctionList, CodeLocal, CodeLocalList, CodePlace, CodePlaceList,
    Origin, ScalarKind,
};
pub use site::Site;
pub use sites::Sites;
pub use theorems::{standing_code_is_valid, standing_locals_are_locals};
pub use validity::valid_code;
