// The entry `audit`.
ghost use Rattle.std.specs.Prelude.{◌≡◌};
ghost use Rattle.std.specs.Result.{IfOk};
ghost use Rattle.audit_faults.specs.First.{first_fault, named};
ghost use Rattle.audit_entry.specs.Audit.{audit_figures, audit_of};

use super::counting::fault_count;
use audit_admitted::{AuditRefusal, check_audit};
use audit_faults::Share;
use graph::Shape;

// The entry: the fault count, and the first fault.
pub fn audit(
    shape1: Shape,
    hops1: &[u16],
    shape2: Shape,
    hops2: &[u16],
    map: &[u16],
) -> Result<Share, AuditRefusal>
    ensures figures { audit_figures result ≡ audit_of shape1 shape2 hops1.now hops2.now map.now }
    ensures names { IfOk result (λ counted. counted.first ≡ named (first_fault shape1 shape2 hops1.now hops2.now map.now)) }
{
    check_audit(shape1, hops1, shape2, hops2, map)?;
    Ok(fault_count(shape1, hops1, shape2, hops2, map))
}
