//! A recording, as the parts of its bytes.
ghost use Rattle.tape.specs.Format.{Contents, Holds};
ghost use Rattle.tape.specs.Unique.{one_contents};

/// Bytes that are a tape (docs/tape.md): those of its columns, those of its events, and how many events there are, which no slice of bytes
/// knows.
#[derive(Clone, Copy)]
pub struct Recording<'a> {
    pub(crate) columns: &'a [u8],
    pub(crate) events: &'a [u8],
    pub(crate) count: u16,
    // the contents of these bytes
    ghost held: { (t : Contents) × Holds columns.now events.now count t } by { one_contents columns.now events.now count },
}
