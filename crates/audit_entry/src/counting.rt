// The fault count and the first fault: each mapped hop is looked up once, and the table of the
// places found serves the second sum and the third.
ghost use Rattle.std.specs.Prelude.{◌≡◌};
ghost use Rattle.audit_faults.specs.Faults.{faults_of};
ghost use Rattle.audit_faults.specs.First.{first_fault, named};
ghost use Rattle.audit_faults.specs.Internal.Images.{Auditable};

use audit_faults::Share;
use audit_faults::images::{Located, put_images};
use audit_faults::lost::{initial_fault, lost_faults};
use audit_faults::mapped::Mapped;
use audit_unmatched::all_unmatched;
use graph::{MOST_HOPS, Shape};
use graph_successors::{STARTS, put_starts};

// The three sums, and the first fault that one of them names.
fn sum_faults(mapped: Mapped<'_>, shape2: Shape) -> Share
    ensures counts { result.faults ≡
        faults_of mapped.entry.shape1 shape2 mapped.entry.hops1.now mapped.entry.hops2.now mapped.entry.map.now }
    ensures names { result.first ≡ named
        (first_fault mapped.entry.shape1 shape2 mapped.entry.hops1.now mapped.entry.hops2.now mapped.entry.map.now) }
{
    let mut starts2 = [0u16; STARTS];
    put_starts(mapped.hops2, &mut starts2);
    let mut images = [0u16; MOST_HOPS];
    put_images(mapped, &starts2, &mut images);
    let located = Located {
        mapped,
        images: &images,
    };
    let initial = initial_fault(mapped.shape1, shape2, mapped.map);
    let lost = lost_faults(located);
    let made_up = all_unmatched(located, &starts2);
    Share {
        faults: initial.faults + lost.faults + made_up.faults,
        first: initial.first.or(lost.first.or(made_up.first)),
    }
}

// The fault count of a map that is admitted, of graphs that are, and the first fault.
pub(crate) fn fault_count<'a>(
    shape1: Shape,
    hops1: &'a [u16],
    shape2: Shape,
    hops2: &'a [u16],
    map: &'a [u16],
) -> Share
    requires { Auditable shape1 hops1.now hops2.now map.now }
    ensures counts { result.faults ≡ faults_of shape1 shape2 hops1.now hops2.now map.now }
    ensures names { result.first ≡ named (first_fault shape1 shape2 hops1.now hops2.now map.now) }
{
    let mapped = Mapped {
        shape1,
        hops1,
        hops2,
        map,
    };
    sum_faults(mapped, shape2)
}
