//! Answers of a recorded result: its events.
use crate::text::Text;
use mysql::{Fault, HostError, Refusal};
use readings::MysqlValue;
use walk::Watch;

impl Text {
    ghost use Rattle.std.specs.Prelude.{Ok, Err, Some};
    ghost use Rattle.walk.specs.Walks.{unopened, a_column, refused};
    ghost use Rattle.answers.specs.Texts.{Puts};
    ghost use Rattle.answers.specs.Events.{failure_part, said_word};

    /// What a host failed with.
    fn failure(&mut self, failure: HostError)
        ensures { Puts self.old self.new (failure_part failure) }
    {
        self.part(b":");
        self.digits(failure.number);
        self.part(b":");
        self.digits(failure.kind.number());
    }

    /// An opening that was refused.
    pub(crate) fn opening_refused(&mut self, fault: Fault)
        ensures { Puts self.old self.new (said_word (unopened fault)) }
    {
        self.part(b" refused:");
        self.digits(fault.number());
        if let Some(failure) = fault.host_error() {
            self.failure(failure);
        }
    }

    /// A column's type and bytes.
    fn typed_bytes(&mut self, value: MysqlValue)
        ensures { Puts self.old self.new (said_word (a_column (Ok (Some (record { tpe = value.entry.tpe; bytes = value.entry.raw.now }))))) }
    {
        self.number(value.value_type().number());
        self.part(b":");
        self.hexadecimal(value.as_bytes());
    }

    /// A reading that was refused.
    pub(crate) fn reading_refused(&mut self, fault: Fault)
        ensures { Puts self.old self.new (said_word (a_column (Err fault))) }
    {
        if fault.number() == Refusal::NoType.number() {
            self.part(b" ?");
        } else {
            self.refusal(fault);
        }
    }

    /// A fetch that was refused.
    pub(crate) fn fetch_refused(&mut self, fault: Fault)
        ensures { Puts self.old self.new (said_word (refused fault)) }
    {
        match fault.host_error() {
            Some(failure) => {
                self.part(b" fail");
                self.failure(failure);
            }
            None if fault.number() == Refusal::NumericOverflow.number() => {
                self.part(b" lost:");
                self.digits(fault.column());
            }
            None => self.refusal(fault),
        }
    }
}

impl Watch for Text {
    ghost use Rattle.answers.specs.Texts.{Has};
    ghost use Rattle.answers.specs.Events.{said_words};

    ghost heard = { λ text said. Has text (said_words said) };

    fn unopened(&mut self, fault: Fault) {
        self.opening_refused(fault);
    }

    fn row(&mut self) {
        self.part(b" row");
    }

    fn null(&mut self) {
        self.part(b" null");
    }

    fn value(&mut self, value: MysqlValue) {
        self.typed_bytes(value);
    }

    fn unread(&mut self, fault: Fault) {
        self.reading_refused(fault);
    }

    fn refused(&mut self, fault: Fault) {
        self.fetch_refused(fault);
    }

    fn end(&mut self) {
        self.part(b" end");
    }
}
