//! How a tape is opened, and what is bound to it.
ghost use Rattle.std.specs.Prelude.{◌≡◌, true, length, is_some, Some};
ghost use Rattle.host.specs.Calls.{in_order};
ghost use Rattle.tape_host.specs.Codes.{own_codes};
ghost use Rattle.tape_host.specs.Tapes.{columns_of, bound_of, places_of, means, Opened};

use crate::tapes::Tape;
use host::{BindRecord, MOST_COLUMNS};
use mysql::Fault;
use tape::Recording;

impl<'a> Tape<'a> {
    /// Takes bytes that are a tape, and refuses all others.
    pub fn new(bytes: &'a [u8]) -> Result<Tape<'a>, Fault>
        ensures { Opened bytes.now result }
    {
        let recording = Recording::new(bytes)?;
        let events = recording.events();
        Ok(Tape {
            events,
            width: events.columns().len(),
            current: None,
            is_bound: false,
            records: [BindRecord::default(); MOST_COLUMNS],
            error: 0,
        })
    }

    /// The records of its columns; none where there is no bind list.
    #[inline(always)]
    pub(crate) fn places(&self) -> &[BindRecord]
        ensures are { result.now ≡ places_of self.now }
        ensures counted { is_some (bound_of self.now) ≡ true → length result.now ≡ length (columns_of self.now) }
    {
        if self.is_bound {
            &self.records[..self.width]
        } else {
            &[]
        }
    }

    /// Binds these records to its columns.
    pub(crate) fn take_records(&mut self, records: &[BindRecord])
        requires counted { length records.now ≡ length (columns_of self.old) }
        requires ordered { in_order 0 records.now ≡ true }
        requires coded { own_codes (columns_of self.old) records.now ≡ true }
        ensures { means self.new ≡ record (means self.old) { bound = Some records.now } }
    {
        self.is_bound = false;
        for (i, record) in records.iter().enumerate() {
            self.records[i] = *record;
        }
        self.is_bound = true;
    }
}
