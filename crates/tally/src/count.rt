//! The count over any host.
ghost use Rattle.std.specs.Prelude.{◌≡◌, length, Some, fold};
ghost use Rattle.tally.specs.Tallies.{own_records, counted, emptied, Tallied};
ghost use Rattle.tally.specs.Reports.{with_report, with_row};

use crate::records::own_records;
use crate::totals::Totals;
use host::{Fetched, Host, MOST_COLUMNS, Report, bind_all};

/// A report more.
fn add_report(totals: Totals, report: &Report) -> Totals
    ensures { result ≡ with_report totals report.now }
{
    if report.is_null {
        Totals {
            nulls: totals.nulls.saturating_add(1),
            ..totals
        }
    } else {
        Totals {
            bytes: totals.bytes.saturating_add(report.length),
            ..totals
        }
    }
}

/// So many reports more.
fn add_reports(totals: Totals, reports: &[Report]) -> Totals
    ensures { result ≡ fold with_report totals reports.now }
{
    reports
        .iter()
        .fold(totals, |totals, report| add_report(totals, report))
}

/// A row more, with these reports.
fn add_row(totals: Totals, reports: &[Report]) -> Totals
    ensures { result ≡ with_row reports.now totals }
{
    let row = Totals {
        rows: totals.rows.saturating_add(1),
        ..totals
    };
    add_reports(row, reports)
}

/// Fetches to the end, and counts. A loop: each turn has the reports that its fetch wrote.
fn count_events<H: Host>(host: &mut H, reports: &mut [Report]) -> Totals
    requires bound { (H.Host.meaning host.old).bound ≡ Some (own_records (H.Host.meaning host.old).columns) }
    requires reported { length reports.old ≡ length (H.Host.meaning host.old).columns }
    ensures counted { result ≡ counted (H.Host.meaning host.old) }
    ensures after { H.Host.meaning host.new ≡ emptied (H.Host.meaning host.old) }
{
    let mut totals = Totals::default();
    loop {
        match host.fetch(&mut [], reports) {
            Fetched::Row | Fetched::Truncated => totals = add_row(totals, reports),
            Fetched::Failed => totals.failures = totals.failures.saturating_add(1),
            Fetched::NoData => return totals,
        }
    }
}

/// Fetches what is to come to its end, each column at its own code and sign, and counts it. There is no count where some column does
/// not carry its own code.
pub fn tally<H: Host>(host: &mut H) -> Option<Totals>
    ensures { Tallied result (H.Host.meaning host.old) (H.Host.meaning host.new) }
{
    let records = own_records(host);
    bind_all(host, &records).ok()?;
    // an array, since it is the host that fills it
    let mut reports = [Report::default(); MOST_COLUMNS];
    Some(count_events(host, &mut reports[..records.len()]))
}
