//! Hashes of records, by which one that came lately is looked for.
ghost use Rattle.std.specs.Prelude.{◌<◌};

use meaning::{Action, Entry, Note, Place, Record, Reply};

/// How many hashes there are.
pub(crate) const HASHES: usize = 128;

/// Three numbers as one, in which small ones have bits of their own.
fn mixed(kind: u64, number: u64, value: u64) -> u64 {
    number ^ value.rotate_left(24) ^ kind.rotate_left(56)
}

/// The key of an entry, as below that of an action, a reply, a place, a note and a record: a number that few others of
/// the same run have.
fn entry_key(entry: Option<Entry>) -> u64 {
    match entry {
        None => 0,
        Some(Entry::Bare(v)) => mixed(1, u64::from(v), 0),
        Some(Entry::Based { value, id, .. }) => mixed(2, u64::from(value), u64::from(id)),
        Some(Entry::Code(f)) => mixed(3, u64::from(f), 0),
    }
}

fn action_key(action: Action) -> u64 {
    match action {
        Action::Own => 0,
        Action::Load(a) => mixed(1, u64::from(a), 0),
        Action::Store(a, v) => mixed(2, u64::from(a), v.cast_unsigned()),
        Action::TryLock(a) => mixed(3, u64::from(a), 0),
        Action::Get(a) => mixed(4, u64::from(a), 0),
        Action::Put(a, entry) => mixed(5, u64::from(a), entry_key(Some(entry))),
        Action::Alloc(k) => mixed(6, u64::from(k), 0),
        Action::Free(id) => mixed(7, u64::from(id), 0),
        Action::Look(id) => mixed(8, u64::from(id), 0),
        Action::Fork => 9,
        Action::Print(v) => mixed(10, 0, v.cast_unsigned()),
        Action::Input(k) => mixed(11, 0, k.cast_unsigned()),
        Action::Halt(_) => 12,
    }
}

fn reply_key(reply: Reply) -> u64 {
    match reply {
        Reply::Nothing => 0,
        Reply::Word(v) => v.cast_unsigned(),
        Reply::Found(entry) => entry_key(entry),
        Reply::Slot(slot) => slot.map_or(0, u64::from),
        Reply::Flag(flag) => u64::from(flag),
        Reply::Thread(thread) => thread.map_or(0, u64::from),
    }
}

fn place_key(place: Place) -> u64 {
    match place {
        Place::At(a) => u64::from(a),
        Place::Slot { depth, slot } => mixed(1, u64::from(slot), u64::from(depth)),
    }
}

fn note_key(note: Note) -> u64 {
    match note {
        Note::Call { depth, f, from } => mixed(u64::from(f), u64::from(from), u64::from(depth)),
        Note::Indirect {
            depth,
            f,
            from,
            place,
        } => mixed(u64::from(f), u64::from(from), u64::from(depth)) ^ place_key(place),
        Note::Start { f, at } => mixed(1, u64::from(f), u64::from(at)),
        Note::Return { depth, f, to } => mixed(u64::from(f), u64::from(to), u64::from(depth)),
        Note::End => 2,
        Note::CodeSlot { depth, slot, f } => mixed(u64::from(f), u64::from(slot), u64::from(depth)),
        Note::CodeOwn { at, f } => mixed(u64::from(f), u64::from(at), 0),
        Note::Stopped(_) => 3,
    }
}

fn record_key(record: &Record) -> u64 {
    match record {
        Record::Steps { t, n } => mixed(u64::from(*t), *n, 0),
        Record::Did { t, action, reply } => {
            mixed(u64::from(*t), action_key(*action), reply_key(*reply))
        }
        Record::Noted { t, note } => mixed(u64::from(*t), note_key(*note), 1),
        Record::Wrote { a, v } => mixed(16, u64::from(*a), v.cast_unsigned()),
    }
}

/// The hash of a record: the highest bits of a product, which hang on all bits of its key.
pub(crate) fn hash_of(record: &Record) -> usize
    ensures { result < HASHES }
{
    let product = record_key(record).wrapping_mul(0x9E37_79B9_7F4A_7C15);
    (product / 0x0200_0000_0000_0000) as usize
}
