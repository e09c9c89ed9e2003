//! Fetching a row: what the host is asked for, and what becomes of its answer.
ghost use Rattle.std.specs.Prelude.{◌≡◌, true, false};
ghost use Rattle.host.specs.Meanings.{Row};
ghost use Rattle.rows.specs.Settling.{RowGot};
ghost use Rattle.session.specs.Settled.{SettledIn};
ghost use Rattle.session.specs.Sessions.{is_open, IsSound, HoldsRow, passes, fetch_due, NotFetched, Fetches, session_of};

use crate::state::{Opened, Session};
use host::{Fetched, Host, MOST_COLUMNS, Report};
use mysql::{Fault, Refusal};
use rows::{Fetch, Spare, populate_dynamic_buffers};

impl<H: Host> Session<H> {
    /// Takes the next event of the host off: a row is shown, or refused; a failure is refused; at the end there is none.
    pub fn fetch(&mut self, arena: &mut [u8]) -> Result<Fetch, Fault>
        ensures answer { IsSound H.Host.meaning self.old → result ≡ fetch_due H.Host.meaning self.old arena.old }
        ensures refused { passes self.old arena.old ≡ false → result ≡ fetch_due H.Host.meaning self.old arena.old }
        ensures unchecked { passes self.old arena.old ≡ false → NotFetched self.old self.new arena.old arena.new }
        ensures opened { is_open self.new ≡ is_open self.old }
        ensures after { IsSound H.Host.meaning self.old → passes self.old arena.old ≡ true → Fetches H.Host.meaning result self.old self.new arena.old arena.new }
        ensures sound { IsSound H.Host.meaning self.old → IsSound H.Host.meaning self.new }
        ensures holds { IsSound H.Host.meaning self.old → HoldsRow H.Host.meaning self.old arena.old → HoldsRow H.Host.meaning self.new arena.new }
    {
        let opened = self.opened.as_mut().ok_or(Fault::new(Refusal::Unopened))?;
        opened.check(arena.len())?;
        opened.populate_row_buffers(&mut self.host, arena, &mut self.reports, &mut self.spare)
    }
}

impl Opened {
    /// The host's answer, where the two checks pass.
    fn populate_row_buffers<H: Host>(
        &mut self,
        host: &mut H,
        arena: &mut [u8],
        reports: &mut [Report; MOST_COLUMNS],
        spare: &mut Spare,
    ) -> Result<Fetch, Fault>
        requires { passes (session_of host.old self.old reports.old spare.old) arena.old ≡ true }
        ensures answer { IsSound H.Host.meaning (session_of host.old self.old reports.old spare.old) → result ≡ fetch_due H.Host.meaning (session_of host.old self.old reports.old spare.old) arena.old }
        ensures after { IsSound H.Host.meaning (session_of host.old self.old reports.old spare.old) → Fetches H.Host.meaning result (session_of host.old self.old reports.old spare.old) (session_of host.new self.new reports.new spare.new) arena.old arena.new }
    {
        self.shown = false;
        let reports = &mut reports[..self.table.count()];
        match host.fetch(arena, reports) {
            Fetched::NoData => Ok(Fetch::End),
            Fetched::Failed => Err(Fault::host(host.error_number())),
            Fetched::Row | Fetched::Truncated => self.settle(host, arena, reports, spare),
        }
    }

    /// Shows the row that the host wrote, unless it is refused.
    fn settle<H: Host>(
        &mut self,
        host: &mut H,
        arena: &mut [u8],
        reports: &[Report],
        spare: &mut Spare,
    ) -> Result<Fetch, Fault>
        requires { self.old.shown ≡ false }
        ensures { (row : Row) → RowGot (H.Host.meaning host.old) row self.old.table reports.now arena.old → SettledIn (H.Host.meaning host.old) row self.old.table reports.now arena.old result (H.Host.meaning host.new) self.new arena.new }
    {
        populate_dynamic_buffers(host, &mut self.table, arena, reports, spare)?;
        self.shown = true;
        Ok(Fetch::Row)
    }
}
