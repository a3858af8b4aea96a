// Find.
ghost use Rattle.std.specs.Prelude.{◌≡◌, length};
ghost use Rattle.graph_check.specs.Check.{check_of};
ghost use Rattle.graph_find.specs.Find.{find_of};
ghost use Rattle.c_answer.specs.Numbers.{shape_of, returned, answer_after};
ghost use Rattle.c_find.specs.Numbers.{finding_numbers};

use c_find::find_into;

#[unsafe(no_mangle)]
pub extern "C" fn zf_find(
    states: u32,
    labels: u32,
    initial: u32,
    hops: &[u16],
    from: u32,
    label: u32,
    to: u32,
    answer: &mut [u64],
) -> u32
    ensures returns { result ≡ returned (check_of (shape_of states labels initial) hops.now) 5 (length answer.old) }
    ensures figures { answer.new ≡
        answer_after 5 (finding_numbers (find_of (shape_of states labels initial) hops.now from label to)) answer.old }
{
    find_into(states, labels, initial, hops, from, label, to, answer)
}
