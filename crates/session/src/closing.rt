//! The two ends of a session, and what can be asked of it.
ghost use Rattle.std.specs.Prelude.{◌≡◌, ◌<◌, ◌≤◌, true, false, if◌then◌else◌, MatchOption};
ghost use Rattle.host.specs.Calls.{freed};
ghost use Rattle.layout.specs.Tables.{count_of, col};
ghost use Rattle.session.specs.Sessions.{is_open, is_shown, table_of, Sound};

use crate::answers::Slip;
use crate::state::Session;
use host::{Host, MOST_COLUMNS, Report};
use layout::ColumnRecord;
use rows::Spare;

impl<H: Host> Session<H> {
    /// A session over a host, not opened yet. The host may be in any state.
    pub fn new(host: H) -> Session<H>
        ensures host { result.host ≡ host }
        ensures unopened { is_open result ≡ false }
        ensures no_row { is_shown result ≡ false }
        ensures sound { Sound (H.Host.meaning host) result }
    {
        Session {
            host,
            opened: None,
            reports: [Report::default(); MOST_COLUMNS],
            spare: Spare::new(),
        }
    }

    /// Ends the session: the host lets go of its result, and is handed back. The slip of a granted opening is spent.
    pub fn close(self, slip: Option<Slip>) -> H
        ensures { H.Host.meaning result ≡ freed (H.Host.meaning self.host) }
    {
        // neither a session nor a slip can be dropped: each is spent by a pattern that takes all of it
        let Session {
            mut host,
            opened: _,
            reports: _,
            spare: _,
        } = self;
        match slip {
            Some(Slip { mark: _ }) => {}
            None => {}
        }
        host.free();
        host
    }

    /// Whether an opening was granted.
    pub fn is_opened(&self) -> bool
        ensures { result ≡ is_open self.now }
    {
        self.opened.is_some()
    }

    /// How many columns are bound: none before an opening was granted.
    pub fn column_count(&self) -> usize
        ensures { result ≡ (if is_open self.now then count_of (table_of self.now) else 0) }
    {
        self.opened
            .as_ref()
            .map_or(0, |opened| opened.table.count())
    }

    /// What is known of a bound column.
    pub fn column(&self, i: usize) -> Option<ColumnRecord>
        ensures { MatchOption result (is_open self.now ≡ true → count_of (table_of self.now) ≤ i) (λ c. (is_open self.now ≡ true) × (i < count_of (table_of self.now)) × (c ≡ col (table_of self.now) i)) }
    {
        self.opened.as_ref()?.table.column(i)
    }
}
