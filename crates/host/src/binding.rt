//! Binding with the answer as a Result, for callers in Rust.
ghost use Rattle.std.specs.Prelude.{◌≡◌, true, false, ◌==◌, is_ok, IfErr};
ghost use Rattle.mysql.specs.Faults.{host_failed};
ghost use Rattle.host.specs.Calls.{bind_error, after_bind};

use crate::Host;
use crate::records::BindRecord;
use mysql::Fault;

/// Binds the host to places; where it refuses, the fault has its error number.
pub fn bind_all<H: Host>(host: &mut H, records: &[BindRecord]) -> Result<(), Fault>
    ensures granted { is_ok result ≡ (bind_error (H.Host.meaning host.old) records.now == 0) }
    ensures failed { IfErr result (λ fault. fault ≡ host_failed (bind_error (H.Host.meaning host.old) records.now)) }
    ensures after { H.Host.meaning host.new ≡ after_bind (H.Host.meaning host.old) records.now }
{
    if host.bind(records) {
        Ok(())
    } else {
        Err(Fault::host(host.error_number()))
    }
}
