//! Where the words of a table lie: three numbers, a cell for each address, an end word for each id,
//! two words for each put.
ghost use Rattle.std.specs.Prelude.{◌≡◌, ◌^◌, ◌<◌};
ghost use Rattle.safe_table.specs.Rule.{IsSize, cell_at, end_at, low_at, word_count};

use crate::history::StoreSize;

/// How many seats have a number.
pub(crate) const NUMBER_WORD: usize = 0;

/// How many slots were drawn.
pub(crate) const SLOT_WORD: usize = 1;

/// How many thread numbers were drawn.
pub(crate) const THREAD_WORD: usize = 2;

const CELLS: usize = 3;

/// The cell of an address.
pub(crate) fn cell_at(a: u32) -> usize
    ensures { result ≡ cell_at a }
{
    CELLS + a as usize
}

fn ends(size: StoreSize) -> usize
    ensures { result ≡ end_at size 0 }
{
    CELLS + 64 * size.slots as usize
}

/// The end word of an id.
pub(crate) fn end_at(size: StoreSize, id: u32) -> usize
    ensures { result ≡ end_at size id }
{
    ends(size) + id as usize
}

/// The low word of record `r`. Its high word is the next one.
pub(crate) fn low_at(size: StoreSize, r: u64) -> usize
    requires { r < 2 ^ 32 }
    ensures { result ≡ low_at size r }
{
    end_at(size, size.slots) + 2 * r as usize
}

/// How many words a table has.
pub(crate) fn word_count(size: StoreSize) -> usize
    requires { IsSize size }
    ensures { result ≡ word_count size }
{
    low_at(size, size.quota * size.threads as u64)
}
