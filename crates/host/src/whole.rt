//! One row, fetched whole from any host.
ghost use Rattle.std.specs.Prelude.{◌≡◌, ◌⊎◌, length, IsTrue};
ghost use Rattle.host.specs.Wholes.{CameWhole, comes_whole, NotBound, BoundAndFetched};

use crate::Host;
use crate::records::{BindRecord, Fetched, Report};

/// Binds the host to places, and fetches; true where a row came of which nothing was truncated. A bool, since there is nothing to hand out: the
/// row is in the caller's arena and reports.
pub fn fetch_whole<H: Host>(
    host: &mut H,
    places: &[BindRecord],
    arena: &mut [u8],
    reports: &mut [Report],
) -> bool
    ensures answer { result ≡ comes_whole (H.Host.meaning host.old) places.now (length arena.old) (length reports.old) }
    ensures whole { IsTrue result → CameWhole (H.Host.meaning host.old) places.now reports.new arena.new }
    ensures after { NotBound (H.Host.meaning host.old) (H.Host.meaning host.new) places.now reports.old reports.new arena.old arena.new ⊎ BoundAndFetched (H.Host.meaning host.old) (H.Host.meaning host.new) places.now reports.old reports.new arena.old arena.new }
{
    host.bind(places) && matches!(host.fetch(arena, reports), Fetched::Row)
}
