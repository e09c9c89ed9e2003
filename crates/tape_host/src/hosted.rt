//! A tape is a host.
ghost use Rattle.std.specs.Prelude.{◌≡◌, false};
ghost use Rattle.host.specs.Calls.{with_error, number_of};
ghost use Rattle.tape_host.specs.Tapes.{means};
ghost use Rattle.tape_host.specs.Formeds.{formed};

use crate::columns::asks_own_codes;
use crate::current::Current;
use crate::places::{all_end_by, are_in_order};
use crate::tapes::Tape;
use crate::write::{write_field, write_row};
use host::{BindRecord, ClientError, Fetched, Host, PAST_COLUMN, Report};
use mysql::Column;
use tape::Event;

impl Tape<'_> {
    /// Refuses a call, for this reason, with what a refused call answers.
    fn refuse(&mut self, why: ClientError) -> bool
        ensures refused { result ≡ false }
        ensures after { means self.new ≡ with_error (number_of why) (means self.old) }
    {
        self.error = why.number();
        false
    }
}

impl Host for Tape<'_> {
    ghost meaning = { means };

    ghost formed = { formed };

    fn column_count(&self) -> usize {
        self.width
    }

    fn column(&self, i: usize) -> Column {
        self.events.columns().get(i).unwrap_or(PAST_COLUMN)
    }

    fn error_number(&self) -> u16 {
        self.error
    }

    fn can_fetch(&self, arena: usize, reports: usize) -> bool {
        self.is_bound && all_end_by(arena, self.places()) && reports == self.width
    }

    fn bind(&mut self, records: &[BindRecord]) -> bool {
        if records.len() != self.width || !are_in_order(records) {
            return self.refuse(ClientError::InvalidParameter);
        }
        if !asks_own_codes(self.events.columns(), records) {
            return self.refuse(ClientError::UnsupportedType);
        }
        self.take_records(records);
        self.error = 0;
        true
    }

    fn fetch(&mut self, arena: &mut [u8], reports: &mut [Report]) -> Fetched {
        if !self.can_fetch(arena.len(), reports.len()) {
            self.refuse(ClientError::InvalidParameter);
            return Fetched::Failed;
        }
        let Some(event) = self.events.peek() else {
            self.current = None;
            self.error = 0;
            return Fetched::NoData;
        };
        match event {
            Event::Failure(number) => {
                let _event = self.events.next();
                self.current = None;
                self.error = number;
                Fetched::Failed
            }
            Event::Row(row) => {
                let (truncated, rest) = write_row(row, self.places(), arena, reports);
                self.events.pass_row(row, rest);
                self.current = Some(Current::new(row));
                self.error = 0;
                if truncated {
                    Fetched::Truncated
                } else {
                    Fetched::Row
                }
            }
        }
    }

    fn fetch_column(
        &mut self,
        column: usize,
        offset: usize,
        part: &mut [u8],
        report: &mut Report,
    ) -> bool {
        let Some(current) = self.current else {
            return self.refuse(ClientError::NoData);
        };
        if column >= self.places().len() {
            return self.refuse(ClientError::InvalidParameter);
        }
        let (field, current) = current.field_at(column, self.places());
        self.current = Some(current);
        self.error = 0;
        *report = write_field(field, offset, part);
        true
    }

    fn free(&mut self) {
        self.events.stop();
        self.current = None;
        self.is_bound = false;
        self.error = 0;
    }
}
