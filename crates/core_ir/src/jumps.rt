//! From where jumps lead to each place of a body, and how far a register is kept.
//!
//! A register that place `s` defines is kept for a use at place `u` where no jump leads behind `s` and not
//! behind `u` but those from between the two. Two tables by place tell this: how far no jump from `s` or
//! before leads, and from where on no jump from `u` or behind leads.

ghost use Rattle.std.specs.Prelude.{◌≡◌, ◌+◌, ◌<◌, ◌≤◌, ◌↔◌, ℕ, IsTrue, length, map, slice_index, slice_set, min, max};
ghost use Rattle.core_ir.specs.Flow.{Jumps as Jump, IsUnreached, Unbroken};
ghost use Rattle.core_ir.specs.inner.Jumps.{AreLeast, AreGreatest, AreOf, Begins, IsSet, Reaches};

use crate::outline::HasOutline;

/// As many as a body may have.
pub(crate) const MOST_INSTRUCTIONS: usize = 65_536;

/// Stands where no jump leads to a place.
const NOWHERE: u32 = u32::MAX;

/// Tables by place.
#[derive(Drop)]
pub(crate) struct Jumps {
    /// The least place from which a jump leads there.
    least: [u32; MOST_INSTRUCTIONS],
    /// The greatest one, and 0 where there is none.
    greatest: [u32; MOST_INSTRUCTIONS],
    /// The last place up to which no jump from here or before leads behind here.
    reach: [u32; MOST_INSTRUCTIONS],
    /// The last place up to here to which a jump from here or behind leads, and 0 where there is none.
    since: [u32; MOST_INSTRUCTIONS],
}

/// How far no jump from `start` or before leads behind it. What is reached behind `start` is known, so
/// places that were passed once are never looked at again.
fn reach_of(least: &[u32], reach: &[u32], count: usize, start: usize) -> u32
    requires few { count ≤ 65536 }
    requires start_in { start < count }
    requires least_in { count ≤ length least.now }
    requires reach_in { count ≤ length reach.now }
    requires known { (s : ℕ) → start < s → s < count
        → Reaches least.now count s (slice_index reach.now s) }
    ensures { Reaches least.now count start result }
{
    let mut end = start;
    while end + 1 < count && least[end + 1] > start as u32 {
        end = reach[end + 1] as usize;
    }
    end as u32
}

/// The last place up to `end` to which a jump from `end` or behind leads, and 0 where there is none.
fn since_of(greatest: &[u32], since: &[u32], end: usize) -> u32
    requires few { end < 65536 }
    requires greatest_in { end < length greatest.now }
    requires since_in { end < length since.now }
    requires known { (u : ℕ) → u < end → Begins greatest.now u (slice_index since.now u) }
    ensures { Begins greatest.now end result }
{
    let mut begin = end;
    while begin > 0 && greatest[begin] < end as u32 {
        begin = since[begin - 1] as usize;
    }
    begin as u32
}

impl Jumps {
    /// Tables of no code.
    pub(crate) fn new() -> Jumps {
        Jumps {
            least: [NOWHERE; MOST_INSTRUCTIONS],
            greatest: [0; MOST_INSTRUCTIONS],
            reach: [0; MOST_INSTRUCTIONS],
            since: [0; MOST_INSTRUCTIONS],
        }
    }

    /// Forgets the jumps to the first places.
    fn clear(&mut self, count: usize)
        requires { count ≤ 65536 }
        ensures least { (l : ℕ) → l < count → slice_index self.new.least l ≡ 4294967295 }
        ensures greatest { (l : ℕ) → l < count → slice_index self.new.greatest l ≡ 0 }
    {
        for place in 0..count {
            self.least[place] = NOWHERE;
            self.greatest[place] = 0;
        }
    }

    /// Notes a jump.
    fn note(&mut self, source: u32, target: u32)
        requires { target < 65536 }
        ensures least { let old = self.old.least in
            IsSet old target (min (slice_index old target) source) self.new.least }
        ensures greatest { let old = self.old.greatest in
            IsSet old target (max (slice_index old target) source) self.new.greatest }
    {
        let target = target as usize;
        self.least[target] = self.least[target].min(source);
        self.greatest[target] = self.greatest[target].max(source);
    }

    /// Finds the sources of jumps.
    fn find_sources<I: HasOutline>(&mut self, code: &[I])
        requires few { length code.now ≤ 65536 }
        requires targets { (q l : ℕ) → Jump (map I.outline code.now) 0 q l → l < length code.now }
        ensures least { let code = map I.outline code.now in
            AreLeast code (length code) self.new.least }
        ensures greatest { let code = map I.outline code.now in
            AreGreatest code (length code) self.new.greatest }
    {
        self.clear(code.len());
        for (source, instr) in code.iter().enumerate() {
            if let Some(target) = instr.target() {
                self.note(source as u32, target);
            }
        }
    }

    /// Finds how far no jump from each place or before leads behind it.
    fn find_reach(&mut self, count: usize)
        requires { count ≤ 65536 }
        ensures reach { (s : ℕ) → s < count
            → Reaches self.old.least count s (slice_index self.new.reach s) }
        ensures least { self.new.least ≡ self.old.least }
        ensures greatest { self.new.greatest ≡ self.old.greatest }
    {
        for place in (0..count).rev() {
            self.reach[place] = reach_of(&self.least, &self.reach, count, place);
        }
    }

    /// Finds from where on no jump from each place or behind leads up to it.
    fn find_since(&mut self, count: usize)
        requires { count ≤ 65536 }
        ensures since { (u : ℕ) → u < count
            → Begins self.old.greatest u (slice_index self.new.since u) }
        ensures least { self.new.least ≡ self.old.least }
        ensures greatest { self.new.greatest ≡ self.old.greatest }
        ensures reach { self.new.reach ≡ self.old.reach }
    {
        for place in 0..count {
            self.since[place] = since_of(&self.greatest, &self.since, place);
        }
    }

    /// Makes the tables of this code.
    pub(crate) fn read<I: HasOutline>(&mut self, code: &[I])
        requires few { length code.now ≤ 65536 }
        requires targets { (q l : ℕ) → Jump (map I.outline code.now) 0 q l → l < length code.now }
        ensures { AreOf (map I.outline code.now) self.new }
    {
        self.find_sources(code);
        self.find_reach(code.len());
        self.find_since(code.len());
    }

    /// Whether no jump leads to the place.
    pub(crate) fn is_unreached<I: HasOutline>(&self, code: &[I], place: usize) -> bool
        requires jumps { AreOf (map I.outline code.now) self.now }
        requires inside { place < length code.now }
        ensures { IsTrue result ↔ IsUnreached (map I.outline code.now) 0 place }
    {
        self.least[place] as usize >= code.len()
    }

    /// Whether each jump to a place behind `server` and not behind `place` comes from between the two.
    pub(crate) fn is_unbroken<I: HasOutline>(&self, code: &[I], server: u32, place: usize) -> bool
        requires jumps { AreOf (map I.outline code.now) self.now }
        requires before { server < place }
        requires inside { place < length code.now }
        ensures { IsTrue result ↔ Unbroken (map I.outline code.now) 0 server place }
    {
        place <= self.reach[server as usize] as usize && self.since[place] <= server
    }
}
