//! What a walk hands on.
ghost use Rattle.std.specs.Prelude.{◌≡◌, List, [], ◌∷◌, ◌++◌, Some, None, Ok, Err};
ghost use Rattle.walk.specs.Walks.{Said, unopened, a_row, a_column, refused, the_end};

use mysql::Fault;
use readings::MysqlValue;

/// Somebody who is told what a session answers, in order.
pub trait Watch {
    // What holds once all of this was said.
    ghost heard: { Self → List Said → Type 0 };

    /// The opening was refused; nothing else follows.
    fn unopened(&mut self, fault: Fault)
        ensures { (said : List Said) → heard self.old said → heard self.new (said ++ unopened fault ∷ []) };

    /// A row is shown; its columns come next, from the first to the last.
    fn row(&mut self)
        ensures { (said : List Said) → heard self.old said → heard self.new (said ++ a_row ∷ []) };

    /// The next column is null, or has a value, or its reading was refused.
    fn null(&mut self)
        ensures { (said : List Said) → heard self.old said → heard self.new (said ++ a_column (Ok None) ∷ []) };

    fn value(&mut self, value: MysqlValue)
        ensures { (said : List Said) → heard self.old said → heard self.new (said ++ a_column (Ok (Some (record { tpe = value.entry.tpe; bytes = value.entry.raw.now }))) ∷ []) };

    fn unread(&mut self, fault: Fault)
        ensures { (said : List Said) → heard self.old said → heard self.new (said ++ a_column (Err fault) ∷ []) };

    /// A fetch was refused.
    fn refused(&mut self, fault: Fault)
        ensures { (said : List Said) → heard self.old said → heard self.new (said ++ refused fault ∷ []) };

    /// No event is left.
    fn end(&mut self)
        ensures { (said : List Said) → heard self.old said → heard self.new (said ++ the_end ∷ []) };
}
