//! The two words of an entry.
ghost use Rattle.std.specs.Prelude.{◌≡◌};
ghost use Rattle.meaning.specs.declared.value.Entry.{Entry};
ghost use Rattle.safe_table.specs.declared.history.StoreSize.{StoreSize};
ghost use Rattle.safe_table.specs.Entries.{IsEntry, low_word, high_word};
ghost use Rattle.safe_table.specs.Rule.{IsSize};

use meaning::Entry;
use safe_table::StoreSize;

/// The number of function 0.
const CODE: u64 = 67_108_864;

const HALF: u64 = 1 << 32;

/// Its number and its id.
pub(crate) fn low_word(size: StoreSize, entry: &Entry) -> u64
    requires { IsEntry size entry.now }
    ensures { result ≡ low_word entry.now }
{
    match *entry {
        Entry::Bare(value) => value as u64 * HALF,
        Entry::Code(f) => (CODE + f as u64) * HALF + 1,
        Entry::Based { value, id, .. } => value as u64 * HALF + id as u64,
    }
}

/// Its bounds.
pub(crate) fn high_word(size: StoreSize, entry: &Entry) -> u64
    requires { IsEntry size entry.now }
    ensures { result ≡ high_word entry.now }
{
    match *entry {
        Entry::Bare(_) => HALF,
        Entry::Code(f) => (CODE + f as u64) * HALF + (CODE + f as u64),
        Entry::Based { lower, upper, .. } => lower as u64 * HALF + upper as u64,
    }
}

/// The entry that has these words.
pub(crate) fn entry_of(size: StoreSize, low: u64, high: u64) -> Entry
    requires { IsSize size }
    ensures { (e : Entry) → IsEntry size e → low ≡ low_word e → high ≡ high_word e → result ≡ e }
{
    let value = low / HALF;
    let id = low % HALF;
    if id == 0 {
        Entry::Bare(value as u32)
    } else if id == 1 {
        Entry::Code(value.saturating_sub(CODE) as u32)
    } else {
        Entry::Based {
            value: value as u32,
            lower: (high / HALF) as u32,
            upper: (high % HALF) as u32,
            id: id as u32,
        }
    }
}
