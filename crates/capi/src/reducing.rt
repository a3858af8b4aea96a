// Reduce, shrink and audit.
ghost use Rattle.std.specs.Prelude.{◌≡◌, length};
ghost use Rattle.reduce_entry.specs.Reduce.{reduce_answer, reduce_of, map_output, short_output};
ghost use Rattle.shrink_entry.specs.Shrink.{shrink_of, shrink_map_output, shrink_hops_output};
ghost use Rattle.audit_admitted.specs.Admitted.{audit_answer};
ghost use Rattle.audit_entry.specs.Audit.{audit_of};
ghost use Rattle.c_answer.specs.Numbers.{shape_of, returned, answer_after, unless_short};
ghost use Rattle.c_reduce.specs.Numbers.{reduction_numbers};
ghost use Rattle.c_shrink.specs.Numbers.{shrinking_numbers};
ghost use Rattle.c_audit.specs.Numbers.{audit_numbers};

use c_audit::audit_into;
use c_reduce::reduce_into;
use c_shrink::shrink_into;

#[unsafe(no_mangle)]
pub extern "C" fn zf_reduce(
    states: u32,
    labels: u32,
    initial: u32,
    hops: &[u16],
    sense: u32,
    map: &mut [u16],
    short: &mut [u16],
    answer: &mut [u64],
) -> u32
    ensures returns { result ≡
        returned
        (reduce_answer (shape_of states labels initial) hops.now sense (length map.old) (length short.old))
        7
        (length answer.old) }
    ensures mapped { map.new ≡
        unless_short 7
        answer.old
        (map_output (shape_of states labels initial) hops.now sense map.old short.old)
        map.old }
    ensures shortened { short.new ≡
        unless_short 7
        answer.old
        (short_output (shape_of states labels initial) hops.now sense map.old short.old)
        short.old }
    ensures figures { answer.new ≡
        answer_after 7
        (reduction_numbers (reduce_of (shape_of states labels initial) hops.now sense (length map.old) (length short.old)))
        answer.old }
{
    reduce_into(states, labels, initial, hops, sense, map, short, answer)
}

#[unsafe(no_mangle)]
pub extern "C" fn zf_shrink(
    states: u32,
    labels: u32,
    initial: u32,
    hops: &[u16],
    sense: u32,
    map: &mut [u16],
    short: &mut [u16],
    answer: &mut [u64],
) -> u32
    ensures returns { result ≡
        returned
        (reduce_answer (shape_of states labels initial) hops.now sense (length map.old) (length short.old))
        8
        (length answer.old) }
    ensures mapped { map.new ≡
        unless_short 8
        answer.old
        (shrink_map_output (shape_of states labels initial) hops.now sense map.old short.old)
        map.old }
    ensures shortened { short.new ≡
        unless_short 8
        answer.old
        (shrink_hops_output (shape_of states labels initial) hops.now sense map.old short.old)
        short.old }
    ensures figures { answer.new ≡
        answer_after 8
        (shrinking_numbers (shrink_of (shape_of states labels initial) hops.now sense (length map.old) (length short.old)))
        answer.old }
{
    shrink_into(states, labels, initial, hops, sense, map, short, answer)
}

#[unsafe(no_mangle)]
pub extern "C" fn zf_audit(
    states1: u32,
    labels1: u32,
    initial1: u32,
    hops1: &[u16],
    states2: u32,
    labels2: u32,
    initial2: u32,
    hops2: &[u16],
    map: &[u16],
    answer: &mut [u64],
) -> u32
    ensures returns { result ≡
        returned
        (audit_answer (shape_of states1 labels1 initial1) (shape_of states2 labels2 initial2) hops1.now hops2.now map.now)
        7
        (length answer.old) }
    ensures figures { answer.new ≡
        answer_after 7
        (audit_numbers
        (audit_of (shape_of states1 labels1 initial1) (shape_of states2 labels2 initial2) hops1.now hops2.now map.now))
        answer.old }
{
    audit_into(
        states1, labels1, initial1, hops1, states2, labels2, initial2, hops2, map, answer,
    )
}
