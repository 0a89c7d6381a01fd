//! Sources and sinks of bytes: what a reader above knows of them is the bytes that they tell, a count
//! of their faults and a count of the bytes that were read, so that "a fault is answered only where one
//! was counted" and "too long only where too much came" can be proved.
#![tactic(auto)]

mod count;
mod memory;
mod number;
mod sink;
mod source;
mod standard;
mod vector;

pub use memory::{MemSink, MemSource};
pub use number::push_number;
pub use sink::{Sink, WriteEnd, write_all};
pub use source::{ReadEnd, Source, Trouble, read_all};
pub use standard::{StdSink, StdSource};
pub use vector::{VecSink, VecSource};
