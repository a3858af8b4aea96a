// Reduction is correct: the audit of what an accepted `reduce` left, in the sense asked, finds no
// fault, whatever the outputs held before (demand 3).
// The contract of one function that reduces and audits says so, in words that the audit alone
// defines. It is there for its contract; nobody need call it.
// Uses `reduce_entry`, `audit_entry`, and `reduce_by_marks` for what a reduction returns.
#![tactic(auto)]

ghost use Rattle.std.specs.Prelude.{◌≡◌, ◌≤◌, length};
ghost use Rattle.graph.specs.Hops.{count};
ghost use Rattle.reduce_entry.specs.Reduce.{made_reduction, reduce_of, map_output, short_output};
ghost use Rattle.audit_entry.specs.Audit.{faultless};
ghost use Rattle.audit_of_reduce.specs.AuditOfReduce.{audit_of_reduce};

use audit_entry::Audit;
use audit_entry::auditing::audit;
use audit_faults::first::no_fault;
use graph::hops::part;
use graph::{Answer, Shape};
use reduce_by_marks::ShortGraph;
use reduce_entry::Reduction;
use reduce_entry::entry::reduce;

// What reducing and then auditing returns: the results of both.
#[derive(Clone, Copy)]
pub struct AuditedReduction {
    pub reduction: Reduction,
    pub audit: Audit,
}

// The audit of the given graph with the front of the map and the front of the short hops, which are
// there.
fn audit_reduction(
    shape: Shape,
    hops: &[u16],
    made: ShortGraph,
    map: &[u16],
    short: &[u16],
) -> Audit
    requires map_there { shape.states ≤ length map.now }
    requires short_there { made.hops ≤ count short.now }
    ensures { result ≡ audit_of_reduce shape hops.now (made_reduction made) map.now short.now }
{
    let states = shape.states as usize;
    let short_hops = part(short, 0, made.hops);
    Audit::from(audit(shape, hops, made.shape, short_hops, &map[..states]))
}

// Reduces, and audits what that left, whatever the outputs held before.
pub fn reduce_and_audit(
    shape: Shape,
    hops: &[u16],
    sense: u32,
    map: &mut [u16],
    short: &mut [u16],
) -> AuditedReduction
    ensures reduced { result.reduction ≡ reduce_of shape hops.now sense (length map.old) (length short.old) }
    ensures audited { result.audit ≡ audit_of_reduce shape hops.now result.reduction map.new short.new }
    ensures right { result.reduction.answer.number ≡ 0 → result.audit ≡ faultless }
    ensures mapped { map.new ≡ map_output shape hops.now sense map.old short.old }
    ensures shortened { short.new ≡ short_output shape hops.now sense map.old short.old }
{
    let outcome = reduce(shape, hops, sense, map, short);
    let audit = match outcome {
        Ok(made) => audit_reduction(shape, hops, made, map, short),
        Err(refusal) => Audit {
            answer: Answer::from(refusal),
            faults: 0,
            first: no_fault(),
        },
    };
    AuditedReduction {
        reduction: Reduction::from(outcome),
        audit,
    }
}
