//! What is told of a class list, event by event.
ghost use Rattle.std.specs.Prelude.{List, [], ◌∷◌, ◌++◌};
ghost use Rattle.class_list.specs.Lines.{Line, row, refused_row, failed};
ghost use Rattle.class_list.specs.Told.{seen_row};

use mysql::Fault;

/// What a row that was shown has, each with the reading's own refusal: class and diameter as whole numbers, and the outlet's bytes where they stand
/// in the arena; none is a null.
#[derive(Clone, Copy)]
pub struct SeenRow<'a> {
    pub class: Result<i32, Fault>,
    pub outlet: Result<Option<&'a [u8]>, Fault>,
    pub diameter: Result<i32, Fault>,
}

/// Somebody who is told the lines of a class list, in order, and who cannot fail.
pub trait Listener {
    // What holds once all of these lines were told.
    ghost heard: { Self → List Line → Type 0 };

    /// A row was shown, and read.
    fn row(&mut self, seen: SeenRow)
        ensures { (told : List Line) → heard self.old told → heard self.new (told ++ row (seen_row seen.entry) ∷ []) };

    /// A row was refused.
    fn row_refused(&mut self, fault: Fault)
        ensures { (told : List Line) → heard self.old told → heard self.new (told ++ refused_row fault ∷ []) };

    /// A failure of the host came in place of a row.
    fn failed(&mut self, fault: Fault)
        ensures { (told : List Line) → heard self.old told → heard self.new (told ++ failed fault ∷ []) };
}
