//! Places in the arena.
ghost use Rattle.std.specs.Prelude.{◌≡◌, true};
ghost use Rattle.host.specs.Calls.{place_end, in_order, all_end_by};

use host::BindRecord;

/// Where a place ends, which may be past the machine's word.
fn end_of(place: BindRecord) -> u128
    ensures { result ≡ place_end place }
{
    place.start as u128 + place.capacity as u128
}

/// Whether no place begins before the one before it ends.
pub(crate) fn are_in_order(records: &[BindRecord]) -> bool
    ensures { result ≡ in_order 0 records.now }
{
    records.is_sorted_by(|place, next| end_of(*place) <= next.start as u128)
}

/// Whether every place ends by the end of an arena of this length. Places in order do where the last one does.
pub(crate) fn all_end_by(arena: usize, records: &[BindRecord]) -> bool
    requires { in_order 0 records.now ≡ true }
    ensures { result ≡ all_end_by arena records.now }
{
    match records.last() {
        Some(last) => end_of(*last) <= arena as u128,
        None => true,
    }
}
