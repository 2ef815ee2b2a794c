//! The one answer of a device that did not do what was asked, and the count of such answers.

ghost use Rattle.std.specs.Prelude.{◌≡◌, ◌≤◌, OnOk, OnErr};
ghost use Rattle.cs_outside.specs.Device.{raised};

use thiserror::Error;

/// The device failed. Its count of faults says that it did.
#[derive(Debug, Drop, Error)]
#[error("the device failed")]
pub struct Failed;

/// The answer, counted if it is a fault. The count stays at 2^64 - 1.
pub(crate) fn counted<T>(faults: &mut u64, answer: Result<T, Failed>) -> Result<T, Failed>
    ensures same { result ≡ answer }
    ensures ok { OnOk answer (faults.new ≡ faults.old) }
    ensures err { OnErr answer (faults.new ≡ raised faults.old) }
    ensures counted { faults.old ≤ faults.new }
{
    if answer.is_err() {
        *faults = faults.saturating_add(1);
    }
    answer
}
