//! What frames keep of their safe locals in every run of the protected machine.
#![tactic(auto)]

mod theorems;

pub use theorems::objects_are_apart;
