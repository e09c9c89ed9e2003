//! What a fetch answers.
ghost use Rattle.std.specs.Prelude.{◌≡◌};
ghost use Rattle.rows.specs.Dues.{fetch_number};

/// What a fetch that is not refused answers; the numbers are those of MySQL's C API.
#[derive(Clone, Copy)]
pub enum Fetch {
    /// A row is shown.
    Row = 0,
    /// No event was left.
    End = 100,
}

impl Fetch {
    /// Its number.
    pub fn number(self) -> u8
        ensures { result ≡ fetch_number self }
    {
        self as u8
    }
}
