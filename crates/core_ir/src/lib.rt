//! Core: the instructions that programs consist of, and what makes a program valid.
#![tactic(auto)]

mod checker;
mod found;
mod frame;
mod instr;
mod instr_outline;
mod jumps;
mod layout;
mod numbers;
mod operator;
mod order;
mod outline;
mod parts;
mod program;
mod range;
mod registers;
mod role;
mod touch;
mod validity;

pub use checker::BodyChecker;
pub use instr::{Arguments, Instr, InstrList};
pub use operator::Operator;
pub use outline::HasOutline;
pub use program::{Function, FunctionList, GlobalList, GlobalVar, Local, LocalList, Program};
pub use role::Role;
pub use validity::valid;
