// The figures of a fault where there is none.
ghost use Rattle.std.specs.Prelude.{◌≡◌};
ghost use Rattle.audit_faults.specs.First.{no_fault};

use super::Fault;

pub fn no_fault() -> Fault
    ensures { result ≡ no_fault }
{
    Fault {
        kind: 0,
        place: 0,
        state: 0,
    }
}
