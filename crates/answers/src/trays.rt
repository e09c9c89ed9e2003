//! Answers of a tray: what all of its rows have, in numbers.
use crate::text::Text;
use checksum::Crc32;
use mysql::{Fault, MysqlType};
use readings::MysqlValue;
use std::alloc::{AllocError, Global};
use tray::Tray;
use walk::{Watch, walk};

/// What was shown so far, in numbers, and what was refused, in words.
#[derive(Drop)]
pub(crate) struct Sum {
    pub(crate) nulls: u64,
    pub(crate) bytes: u64,
    pub(crate) checksum: Crc32,
    pub(crate) text: Text,
}

impl Sum {
    ghost use Rattle.std.specs.Prelude.{◌++◌, List, ℕ, [], length, IfOk};
    ghost use Rattle.walk.specs.Walks.{Said};
    ghost use Rattle.answers.specs.Texts.{Has};
    ghost use Rattle.answers.specs.Trays.{numbers};
    ghost use Rattle.answers.specs.Sums.{Holds};
    ghost use Rattle.answers.specs.Answers.{TrayAnswered};

    pub(crate) fn new(heap: Global) -> Result<Sum, AllocError>
        ensures { IfOk result (λ sum. Holds sum []) }
    {
        Ok(Sum {
            nulls: 0,
            bytes: 0,
            checksum: Crc32::new(),
            text: Text::new(heap)?,
        })
    }

    pub(crate) fn clear(&mut self)
        ensures { Holds self.new [] }
    {
        self.nulls = 0;
        self.bytes = 0;
        self.checksum = Crc32::new();
        self.text.clear();
    }

    /// Nulls, bytes and checksum.
    fn numbers(&mut self)
        ensures { (said : List Said) (words : List ℕ) → Holds self.old said → Has self.old.text words → Has self.new.text (words ++ numbers said) }
    {
        self.text.number(self.nulls);
        self.text.number(self.bytes);
        self.text.number(self.checksum.value());
    }

    /// How many rows of a tray are null, how many bytes the others have, and the checksum of these; or what was refused.
    pub(crate) fn tray(&mut self, arena: &mut [u8], wanted: &[Option<MysqlType>], rows: u16)
        requires { Holds self.old [] }
        ensures { (words : List ℕ) × TrayAnswered (length arena.old) rows wanted.now words × Has self.new.text words }
    {
        walk(Tray::new(rows), arena, wanted, self);
        if self.text.is_empty() {
            self.numbers();
        }
    }
}

impl Watch for Sum {
    ghost use Rattle.answers.specs.Sums.{Holds};

    ghost heard = { Holds };

    fn unopened(&mut self, fault: Fault) {
        self.text.opening_refused(fault);
    }

    fn row(&mut self) {}

    fn null(&mut self) {
        self.nulls = self.nulls.saturating_add(1);
    }

    fn value(&mut self, value: MysqlValue) {
        let bytes = value.as_bytes();
        self.bytes = self.bytes.saturating_add(bytes.len() as u64);
        self.checksum.update(bytes);
    }

    fn unread(&mut self, fault: Fault) {
        self.text.reading_refused(fault);
    }

    fn refused(&mut self, fault: Fault) {
        self.text.fetch_refused(fault);
    }

    fn end(&mut self) {}
}
