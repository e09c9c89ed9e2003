//! A text in the making.
ghost use Rattle.std.specs.Prelude.{◌≤◌, ◌^◌, vec_capacity};

/// For how many bytes of words there is memory from the start.
pub(crate) const ROOM: usize = 1 << 20;

/// Words, each with a space before it, as far as there was memory for them.
#[derive(Drop)]
pub(crate) struct Text {
    pub(crate) bytes: Vec<u8>,
    /// Some words are missing, for the lack of memory.
    pub(crate) is_cut: bool,
    ghost roomy: { 2 ^ 20 ≤ vec_capacity bytes },
}
