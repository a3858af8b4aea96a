// `audit` for the C ABI: which figures it writes into the answer slice, and which number it
// returns.
// `capi` exports the function unchanged.
// Uses `audit_entry` for `audit`, `audit_faults` for a fault, and `c_answer` for what is written
// and returned.
#![tactic(auto)]

ghost use Rattle.std.specs.Prelude.{◌≡◌, length};
ghost use Rattle.audit_admitted.specs.Admitted.{audit_answer};
ghost use Rattle.audit_entry.specs.Audit.{audit_of};
ghost use Rattle.c_answer.specs.Numbers.{shape_of, returned, answer_after};
ghost use Rattle.c_audit.specs.Numbers.{audit_numbers};

use audit_entry::Audit;
use audit_entry::auditing::audit;
use c_answer::put_answer;
use graph::Shape;

// An answer, the fault count, and the first fault's kind, place and state.
fn put_audit(out: &mut [u64], audited: Audit) -> u32
    ensures returns { result ≡ returned audited.answer 7 (length out.old) }
    ensures figures { out.new ≡ answer_after 7 (audit_numbers audited) out.old }
{
    let first = audited.first;
    let figures = [
        u64::from(audited.faults),
        u64::from(first.kind),
        first.place as u64,
        u64::from(first.state),
    ];
    put_answer(out, audited.answer, &figures)
}

pub fn audit_into(
    states1: u32,
    labels1: u32,
    initial1: u32,
    hops1: &[u16],
    states2: u32,
    labels2: u32,
    initial2: u32,
    hops2: &[u16],
    map: &[u16],
    answer: &mut [u64],
) -> u32
    ensures returns { result ≡
        returned
        (audit_answer (shape_of states1 labels1 initial1) (shape_of states2 labels2 initial2) hops1.now hops2.now map.now)
        7
        (length answer.old) }
    ensures figures { answer.new ≡
        answer_after 7
        (audit_numbers
        (audit_of (shape_of states1 labels1 initial1) (shape_of states2 labels2 initial2) hops1.now hops2.now map.now))
        answer.old }
{
    let shape1 = Shape {
        states: states1,
        labels: labels1,
        initial: initial1,
    };
    let shape2 = Shape {
        states: states2,
        labels: labels2,
        initial: initial2,
    };
    let audited = Audit::from(audit(shape1, hops1, shape2, hops2, map));
    put_audit(answer, audited)
}
