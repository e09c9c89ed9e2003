//! A field of a recorded row.

/// Null, or bytes; `lost` says that a figure was lost when the bytes were made.
#[derive(Clone, Copy)]
pub enum Field<'a> {
    Null,
    Held { bytes: &'a [u8], lost: bool },
}
