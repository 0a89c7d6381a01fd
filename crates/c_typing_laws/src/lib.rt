//! The laws of typed forms: what `c_typing`'s `check` gives of every source, in words that know no scopes and no order.
#![tactic(auto)]

mod theorems;

pub use theorems::{
    structs_get_their_bodies, typed_sources_are_typed, typed_sources_keep_their_trees,
    walks_meet_rows,
};
