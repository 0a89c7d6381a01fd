//! What emits one level of a tree, over what emits its parts.

use c_typed::TypedExpr;
use elab_emit::{Emitter, Trouble};
use elab_parts::Parts;
use elab_rows::Scope;

/// What emits one level of a tree.
#[derive(Clone, Copy)]
pub(crate) struct Pass<'s, V, A> {
    pub(crate) parts: Parts<'s, V, A>,
}
