//! Who is told what a session answers.
ghost use Rattle.std.specs.Prelude.{List, [], ◌∷◌, ◌++◌};
ghost use Rattle.play.specs.Histories.{Entry};
ghost use Rattle.play.specs.Calls.{asked_of, said_by};

use crate::calls::{Answer, Call};

/// Somebody who is told each call and its answer, in order. The bytes of an answer are lent for as long as that takes.
pub trait Listener {
    // What holds once this history was heard.
    ghost heard: { Self → List Entry → Type 0 };

    fn hear(&mut self, call: Call, answer: Answer<&[u8]>)
        ensures { (history : List Entry) → heard self.old history → heard self.new (history ++ record { asked = asked_of call.entry; said = said_by (λ bytes. bytes.now) answer.entry } ∷ []) };
}
