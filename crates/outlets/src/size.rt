//! How much a tape holds.
ghost use Rattle.outlets.specs.Sizes.{Sized};

use mysql::Fault;
use tape::Recording;

#[repr(C)]
#[derive(Clone, Copy, Default)]
pub struct TapeSize {
    pub columns: usize,
    pub events: usize,
}

/// The numbers of columns and events of a tape, or the refusal of bytes that are none.
pub fn tape_size(bytes: &[u8]) -> Result<TapeSize, Fault>
    ensures { Sized bytes.now result }
{
    let recording = Recording::new(bytes)?;
    Ok(TapeSize {
        columns: recording.columns().len(),
        events: recording.events().count(),
    })
}
