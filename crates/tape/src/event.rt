//! What a recording holds, one after the other.

/// A row, as the bytes from its first field on, with the bytes of the columns. Its fields go as far as they stand there.
#[derive(Clone, Copy)]
pub struct Row<'a> {
    pub columns: &'a [u8],
    pub bytes: &'a [u8],
}

/// A row, or a failure with the number of its error.
#[derive(Clone, Copy)]
pub enum Event<'a> {
    Row(Row<'a>),
    Failure(u16),
}
