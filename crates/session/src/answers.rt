//! What a granted opening hands out.

/// A slip. It cannot be copied, made otherwise, or let go: closing the session takes it back.
pub struct Slip {
    pub(crate) mark: (),
}
