//! Kept bytes, moved to new places inside one arena.
ghost use Rattle.std.specs.Prelude.{◌≡◌, ℕ, ◌+◌, ◌-◌, ◌^◌, ◌<◌, ◌≤◌, List, max, take, drop, length, slice_index};
ghost use Rattle.layout.specs.Tables.{Grown, start, end};
ghost use Rattle.layout.specs.Moves.{Carried, Beyond};

use crate::table::ColumnTable;

/// Moves `n` bytes, which stand at `from`, to `to`. From 4 to 128 of them are read before any is written, by two copies of a fixed size.
fn shift(arena: &mut [u8], from: usize, n: usize, to: usize)
    requires stands { from + n ≤ length arena.old }
    requires lands { to + n ≤ length arena.old }
    ensures moved { (k : ℕ) → k < n → slice_index arena.new (to + k) ≡ slice_index arena.old (from + k) }
    ensures before { (k : ℕ) → k < to → slice_index arena.new k ≡ slice_index arena.old k }
    ensures after { (k : ℕ) → to + n ≤ k → slice_index arena.new k ≡ slice_index arena.old k }
{
    if n > 128 || n < 4 {
        arena.copy_within(from..from + n, to);
    } else if n >= 64 {
        shift_ends::<64>(arena, from, n, to);
    } else if n >= 32 {
        shift_ends::<32>(arena, from, n, to);
    } else if n >= 16 {
        shift_ends::<16>(arena, from, n, to);
    } else if n >= 8 {
        shift_ends::<8>(arena, from, n, to);
    } else {
        shift_ends::<4>(arena, from, n, to);
    }
}

/// Moves the first and the last `N` of `n` bytes, which together are all of them.
#[inline(always)]
fn shift_ends<const N: usize>(arena: &mut [u8], from: usize, n: usize, to: usize)
    requires small { N < 2 ^ 32 }
    requires enough { N ≤ n }
    requires few { n ≤ N + N }
    requires stands { from + n ≤ length arena.old }
    requires lands { to + n ≤ length arena.old }
    ensures moved { (k : ℕ) → k < n → slice_index arena.new (to + k) ≡ slice_index arena.old (from + k) }
    ensures before { (k : ℕ) → k < to → slice_index arena.new k ≡ slice_index arena.old k }
    ensures after { (k : ℕ) → to + n ≤ k → slice_index arena.new k ≡ slice_index arena.old k }
{
    let bytes = &arena[from..from + n];
    if let (Some(first), Some(last)) = (bytes.first_chunk::<N>(), bytes.last_chunk::<N>()) {
        let first = *first;
        let last = *last;
        put_ends(first, last, &mut arena[to..to + n]);
    }
}

/// Writes what begins and what ends these bytes.
#[inline(always)]
fn put_ends<const N: usize>(first: [u8; N], last: [u8; N], part: &mut [u8])
    requires small { N < 2 ^ 32 }
    requires enough { N ≤ length part.old }
    requires few { length part.old ≤ N + N }
    ensures { (bytes : List ℕ) → length bytes ≡ length part.old → first.entry ≡ take N bytes → last.entry ≡ drop (length bytes - N) bytes → part.new ≡ bytes }
{
    if let Some(place) = part.first_chunk_mut::<N>() {
        *place = first;
    }
    if let Some(place) = part.last_chunk_mut::<N>() {
        *place = last;
    }
}

/// Moves what goes right, from the last column to the first, so that nothing is written over that is still to be moved.
pub(crate) fn right(arena: &mut [u8], old: &ColumnTable, new: &ColumnTable)
    requires grown { Grown old.now new.now }
    requires room { old.now.room ≤ length arena.old }
    ensures carried { Carried old.now (start old.now) (λ k. max (start old.now k) (start new.now k)) arena.old arena.new }
    ensures beyond { Beyond (end new.now) arena.old arena.new }
{
    for (from, to) in old.columns().iter().rev().zip(new.columns().iter().rev()) {
        if from.start < to.start {
            shift(arena, from.start, from.kept(), to.start);
        }
    }
}

/// Moves what goes left, from the first column to the last.
pub(crate) fn left(arena: &mut [u8], old: &ColumnTable, new: &ColumnTable)
    requires grown { Grown old.now new.now }
    requires room { old.now.room ≤ length arena.old }
    ensures carried { Carried old.now (λ k. max (start old.now k) (start new.now k)) (start new.now) arena.old arena.new }
    ensures beyond { Beyond (end new.now) arena.old arena.new }
{
    for (from, to) in old.columns().iter().zip(new.columns().iter()) {
        if to.start < from.start {
            shift(arena, from.start, from.kept(), to.start);
        }
    }
}
