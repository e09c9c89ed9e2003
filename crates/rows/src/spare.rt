//! Memory in which places are laid out.
ghost use Rattle.std.specs.Prelude.{◌≡◌, ◌==◌, is_ok, IfErr};
ghost use Rattle.mysql.specs.Faults.{host_failed};
ghost use Rattle.host.specs.Calls.{bind_error, after_bind};
ghost use Rattle.layout.specs.Tables.{count_of, binds};

use host::{BindRecord, Host, MOST_COLUMNS, bind_all};
use layout::ColumnTable;
use mysql::Fault;

/// A table for places that are new, and what the host is told of these.
#[derive(Drop)]
pub struct Spare {
    pub table: ColumnTable,
    pub(crate) binds: [BindRecord; MOST_COLUMNS],
}

impl Spare {
    /// With no columns yet.
    pub fn new() -> Spare
        ensures { count_of result.table ≡ 0 }
    {
        Spare {
            table: ColumnTable::new(),
            binds: [BindRecord::default(); MOST_COLUMNS],
        }
    }

    /// Binds the host to the table's places; where it refuses, the fault has its error number.
    pub fn bind_host<H: Host>(&mut self, host: &mut H) -> Result<(), Fault>
        ensures table { self.new.table ≡ self.old.table }
        ensures granted { is_ok result ≡ (bind_error (H.Host.meaning host.old) (binds self.old.table) == 0) }
        ensures failed { IfErr result (λ fault. fault ≡ host_failed (bind_error (H.Host.meaning host.old) (binds self.old.table))) }
        ensures after { H.Host.meaning host.new ≡ after_bind (H.Host.meaning host.old) (binds self.old.table) }
    {
        self.table.write_binds(&mut self.binds);
        bind_all(host, &self.binds[..self.table.count()])
    }
}
