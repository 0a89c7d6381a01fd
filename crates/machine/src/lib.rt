//! The machine over all of Core: code whose types are decided, and what its turns, runs and laws mean.
#![tactic(auto)]

mod code;
mod code_outline;

pub use code::{
    Code, CodeFunction, CodeFunctionList, CodeLocal, CodeLocalList, CodePlace, CodePlaceList,
    Origin, ScalarKind,
};
