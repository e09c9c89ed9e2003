//! A tray is a host.
ghost use Rattle.std.specs.Prelude.{◌≡◌, false, is_some, IfSome};
ghost use Rattle.host.specs.Calls.{with_error, allows, number_of};
ghost use Rattle.tray.specs.Trays.{Inside, means};
ghost use Rattle.tray.specs.Formeds.{formed};

use crate::rows::write_field;
use crate::tray::Tray;
use host::{BindRecord, ClientError, Fetched, Host, PAST_COLUMN, Report};
use mysql::{Column, MYSQL_TYPE_VAR_STRING};

/// The code of the one column, a number as in the C interface.
const CODE: u8 = MYSQL_TYPE_VAR_STRING;

impl Tray {
    /// The place of the column, where a fetch into an arena of this length, with this many reports, is allowed.
    fn place_in(&self, arena: usize, reports: usize) -> Option<BindRecord>
        ensures allowed { is_some result ≡ allows (means self.now) arena reports }
        ensures inside { IfSome result (Inside self.now.place arena reports) }
    {
        self.place.filter(|place| {
            place.start <= arena && place.capacity <= arena - place.start && reports == 1
        })
    }

    /// Refuses a call, for this reason, with what a refused call answers.
    fn refuse(&mut self, why: ClientError) -> bool
        ensures refused { result ≡ false }
        ensures after { means self.new ≡ with_error (number_of why) (means self.old) }
    {
        self.error = why.number();
        false
    }
}

impl Host for Tray {
    ghost meaning = { means };

    ghost formed = { formed };

    fn column_count(&self) -> usize {
        1
    }

    fn column(&self, i: usize) -> Column {
        if i == 0 {
            Column {
                code: CODE,
                flags: 0,
            }
        } else {
            PAST_COLUMN
        }
    }

    fn error_number(&self) -> u16 {
        self.error
    }

    fn can_fetch(&self, arena: usize, reports: usize) -> bool {
        self.place_in(arena, reports).is_some()
    }

    fn bind(&mut self, records: &[BindRecord]) -> bool {
        let [record] = records else {
            return self.refuse(ClientError::InvalidParameter);
        };
        if record.code != CODE {
            return self.refuse(ClientError::UnsupportedType);
        }
        self.place = Some(*record);
        self.error = 0;
        true
    }

    fn fetch(&mut self, arena: &mut [u8], reports: &mut [Report]) -> Fetched {
        let Some(place) = self.place_in(arena.len(), reports.len()) else {
            self.refuse(ClientError::InvalidParameter);
            return Fetched::Failed;
        };
        self.error = 0;
        if self.taken >= self.rows {
            self.current = None;
            return Fetched::NoData;
        }
        let k = usize::from(self.taken) + 1;
        self.taken += 1;
        self.current = Some(k);
        let end = place.start + place.capacity;
        let report = write_field(k, 0, &mut arena[place.start..end]);
        reports[0] = report;
        if report.is_truncated {
            Fetched::Truncated
        } else {
            Fetched::Row
        }
    }

    fn fetch_column(
        &mut self,
        column: usize,
        offset: usize,
        part: &mut [u8],
        report: &mut Report,
    ) -> bool {
        let Some(k) = self.current else {
            return self.refuse(ClientError::NoData);
        };
        if self.place.is_none() || column != 0 {
            return self.refuse(ClientError::InvalidParameter);
        }
        self.error = 0;
        *report = write_field(k, offset, part);
        true
    }

    fn free(&mut self) {
        self.taken = self.rows;
        self.current = None;
        self.place = None;
        self.error = 0;
    }
}
