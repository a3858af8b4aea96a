// `find` for the C ABI: which figures it writes into the answer slice, and which number it returns.
// `capi` exports the function unchanged.
// Uses `graph_find` for where the hop stands or would stand, and `c_answer` for what is written and
// returned.
#![tactic(auto)]

ghost use Rattle.std.specs.Prelude.{◌≡◌, length};
ghost use Rattle.graph_check.specs.Check.{check_of};
ghost use Rattle.graph_find.specs.Find.{find_of};
ghost use Rattle.c_answer.specs.Numbers.{shape_of, returned, answer_after};
ghost use Rattle.c_find.specs.Numbers.{finding_numbers};

use c_answer::put_answer;
use graph::Shape;
use graph_find::{Finding, find};

// An answer, whether the hop is found, and its place.
fn put_finding(out: &mut [u64], finding: Finding) -> u32
    ensures returns { result ≡ returned finding.answer 5 (length out.old) }
    ensures figures { out.new ≡ answer_after 5 (finding_numbers finding) out.old }
{
    let figures = [u64::from(finding.found), finding.place as u64];
    put_answer(out, finding.answer, &figures)
}

pub fn find_into(
    states: u32,
    labels: u32,
    initial: u32,
    hops: &[u16],
    from: u32,
    label: u32,
    to: u32,
    answer: &mut [u64],
) -> u32
    ensures returns { result ≡ returned (check_of (shape_of states labels initial) hops.now) 5 (length answer.old) }
    ensures figures { answer.new ≡
        answer_after 5 (finding_numbers (find_of (shape_of states labels initial) hops.now from label to)) answer.old }
{
    let shape = Shape {
        states,
        labels,
        initial,
    };
    let finding = Finding::from(find(shape, hops, from, label, to));
    put_finding(answer, finding)
}
