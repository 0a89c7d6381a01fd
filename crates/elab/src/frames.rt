//! Where the locals of a function stand, and the layout of its frame.

ghost use Rattle.std.specs.Prelude.{◌≡◌, ◌+◌, ◌<◌, ◌≤◌, ℕ, IfNone, IfOk, IfSome, MatchOption};
ghost use Rattle.core_ir.specs.Layout.{local_units};
ghost use Rattle.core_ir.specs.Valid.{most_frame_units};
ghost use Rattle.elab_pieces.specs.Functions.{frame_locals};
ghost use Rattle.elab_rows.specs.Scope as spec;

use c_typed::Local as Variable;
use c_types::{copy_type, is_scalar};
use core_ir::{Local, LocalList};
use elab_emit::units;
use elab_rows::{Scope, Standing};
use sqlite_items::Items;
use std::alloc::{AllocError, Global};

/// The most units of a frame.
const MOST_FRAME_UNITS: u32 = 16_384;

/// Where locals stand, and the first slot behind those of parameters and locals.
#[derive(Drop)]
pub(crate) struct Standings {
    pub(crate) places: Items<Standing>,
    pub(crate) slots: u32,
}

/// Whether a variable has a slot: a scalar whose address is taken nowhere.
#[tactic(auto, unfolding(elab_rows::specs::Scope::is_slot_local))]
fn is_slot_local(variable: &Variable) -> bool
    ensures { result ≡ spec.is_slot_local variable.now }
{
    is_scalar(&variable.ty) && !variable.is_addressed
}

/// A number, one higher if this holds.
///
/// # Errors
///
/// `AllocError`, where it is above 32 bits.
fn one_more_if(holds: bool, n: u32) -> Result<u32, AllocError>
    ensures { IfOk result (λ m. m ≡ spec.one_more_if holds n) }
{
    if !holds {
        return Ok(n);
    }
    match n.checked_add(1) {
        Some(next) => Ok(next),
        None => Err(AllocError),
    }
}

/// Where locals stand, of which so many are parameters.
pub(crate) fn local_standings(
    alloc: Global,
    parameters: usize,
    variables: &[Variable],
) -> Result<Standings, AllocError>
    ensures { IfOk result (λ s. (s.places ≡ spec.standings parameters 0 0 variables.now)
        × (s.slots ≡ spec.slots_behind parameters 0 variables.now)) }
{
    let mut places = Items::new(alloc);
    let mut slots = 0;
    let mut frame = 0;
    for (i, variable) in variables.iter().enumerate() {
        let in_slot = is_slot_local(variable);
        if in_slot {
            places.push(Standing::Slot(slots))?;
        } else {
            places.push(Standing::Frame(frame))?;
        }
        slots = one_more_if(i < parameters || in_slot, slots)?;
        frame = one_more_if(!in_slot, frame)?;
    }
    Ok(Standings { places, slots })
}

/// A frame: its locals in order, and the units that they have.
#[derive(Drop)]
pub(crate) struct Frame {
    pub(crate) locals: LocalList,
    pub(crate) units: u32,
}

/// The frame of these variables, and none exactly where it has more units than a frame may have.
pub(crate) fn frame_of(
    alloc: Global,
    scope: &Scope,
    variables: &[Variable],
) -> Result<Option<Frame>, AllocError>
    ensures { IfOk result (λ found. let locals = frame_locals scope.now.structs 0 variables.now in
        MatchOption found (most_frame_units < local_units locals) (λ f. (f.locals ≡ locals) × (f.units ≡ local_units locals) × (local_units locals ≤ most_frame_units))) }
{
    let mut locals = Items::new(alloc);
    let mut offset: u32 = 0;
    for variable in variables {
        if is_slot_local(variable) {
            continue;
        }
        let units = units(scope, &variable.ty)?;
        let ty = copy_type(&variable.ty)?;
        locals.push(Local { ty, offset, units })?;
        let Some(end) = offset.checked_add(units) else {
            return Err(AllocError);
        };
        if end > MOST_FRAME_UNITS {
            return Ok(None);
        }
        offset = end;
    }
    Ok(Some(Frame {
        locals,
        units: offset,
    }))
}
