// The third sum of the fault count: the pairs of a hop (transition) of graph 2 and a state of graph
// 1 that is mapped to its start and does not match it, and the first of them.
// It goes by states of graph 1: a breadth-first search along silent (tau) hops, then
// `audit_matched` stamps the hops of graph 2 that the state matches, and the other hops of its
// image are faults, silent ones to itself aside. The smallest place is kept, with the first state
// that has it.
// Uses `audit_faults` for what the sum and the first fault are, `audit_matched` for the stamps,
// `graph_index` for the hops of a state, and `walk_reach` along the silent hops of `walk_silent`.
#![tactic(auto)]

ghost use Rattle.std.specs.Prelude.{◌≡◌, ◌+◌, ◌<◌, ◌≤◌, length};
ghost use Rattle.base_bounded.specs.Quantifiers.{least, tally};
ghost use Rattle.graph.specs.Hops.{count};
ghost use Rattle.graph.specs.Answers.{most_states};
ghost use Rattle.graph_successors.specs.Internal.SuccessorIndex.{SuccessorIndex};
ghost use Rattle.graph_successors.specs.Internal.Facts.{successor_index_prop};
ghost use Rattle.walk_reach.specs.Internal.Reach.{Chooses};
ghost use Rattle.walk_silent.specs.Silent.{silent_at};
ghost use Rattle.audit_faults.specs.Faults.{unmatched_faults};
ghost use Rattle.audit_faults.specs.First.{first_unmatched, named};
ghost use Rattle.graph_check.specs.Internal.Places.{place_below};
ghost use Rattle.audit_unmatched.specs.Internal.Facts.{chooses_prop};
ghost use Rattle.audit_unmatched.specs.Internal.States.{unstamped, Fresh, unmatched_of, unmatched_place_of, kept_with};

use audit_faults::images::Located;
use audit_faults::{Fault, Share};
use audit_matched::stamp_all;
use graph::hops::{hop_count, label_at, new_from_at, new_to_at};
use graph::{MOST_HOPS, MOST_STATES, NewState, OldState};
use graph_index::{Index, Indexed};
use graph_successors::{STARTS, put_starts};
use walk_reach::reach;
use walk_silent::chosen::silent_flags;

// The working space, made once for all states: for the search, and a stamp for each hop of graph 2.
#[derive(Drop)]
struct Workspace {
    seen: [bool; MOST_STATES],
    queue: [u16; MOST_STATES],
    stamps: [u16; MOST_HOPS],
}

// What is unmatched for one state: how many hops of graph 2, and the place of the first.
#[derive(Clone, Copy)]
pub struct OfState {
    pub faults: u32,
    pub place: Option<usize>,
}

// Graph 2 once the hops that a state matches have the stamp k, where r is the state's image.
#[derive(Clone, Copy)]
struct Stamped<'a, 's> {
    index2: Index<'a>,
    stamps: &'s [u16],
    r: NewState,
    k: u16,
    ghost capacity: { count index2.hops.now ≤ length stamps.now },
    ghost few: { r.0 < most_states },
}

impl<'a, 's> Stamped<'a, 's> {
    // Whether the hop at place j of graph 2 leaves r, is no silent hop to r itself, and does not
    // have the stamp k.
    #[tactic(auto, unfolding(crate::specs::Internal::States::unstamped))]
    fn is_unstamped(self, j: usize) -> bool
        requires { j < count self.index2.hops.now }
        ensures { result ≡ unstamped self.entry.index2.hops.now self.entry.stamps.now self.entry.r.0 self.entry.k j }
    {
        let from = new_from_at(self.index2.hops, j);
        let a = label_at(self.index2.hops, j);
        let q = new_to_at(self.index2.hops, j);
        (self.r == from) & !(((a.0 == 0) & (from == q)) | (self.stamps[j] == self.k))
    }

    // The place of the first such hop of graph 2, or its hop count. Only the hops of r are looked
    // at: no other hop can be one. An `Option` here would take the audit a quarter more time, since
    // the compiler would move along in this loop what the next one starts from.
    fn first_unstamped(self) -> usize
        ensures { result ≡ least (count self.entry.index2.hops.now)
            (unstamped self.entry.index2.hops.now self.entry.stamps.now self.entry.r.0 self.entry.k) }
    {
        for j in self.index2.first(self.r.0)..self.index2.past(self.r.0) {
            if self.is_unstamped(j) {
                return j;
            }
        }
        hop_count(self.index2.hops)
    }

    // How many such hops graph 2 has, counted from the first of them on.
    fn unstamped_from(self, first: usize) -> u32
        requires { first ≡ least (count self.index2.hops.now) (unstamped self.index2.hops.now self.stamps.now self.r.0 self.k) }
        ensures { result ≡ tally (count self.entry.index2.hops.now)
            (unstamped self.entry.index2.hops.now self.entry.stamps.now self.entry.r.0 self.entry.k) }
    {
        let mut faults = 0;
        for j in first..self.index2.past(self.r.0) {
            if self.is_unstamped(j) {
                faults += 1;
            }
        }
        faults
    }

    // How many such hops graph 2 has, and the place of the first.
    fn unstamped(self) -> OfState
        ensures counts { result.faults ≡ tally (count self.entry.index2.hops.now)
            (unstamped self.entry.index2.hops.now self.entry.stamps.now self.entry.r.0 self.entry.k) }
        ensures names { result.place ≡ place_below (count self.entry.index2.hops.now)
            (least (count self.entry.index2.hops.now)
            (unstamped self.entry.index2.hops.now self.entry.stamps.now self.entry.r.0 self.entry.k)) }
    {
        let first = self.first_unstamped();
        let faults = self.unstamped_from(first);
        let place = if first < hop_count(self.index2.hops) {
            Some(first)
        } else {
            None
        };
        OfState { faults, place }
    }
}

// The first fault of kind 3 so far, once the state s is passed, with the first place of a hop that
// is unmatched for it. The states are passed in order, but the first fault goes by hops: so the
// smallest place is kept, with the first state that has it.
fn keep(kept: Option<Fault>, place: Option<usize>, s: u16) -> Option<Fault>
    ensures { result ≡ kept_with kept place s }
{
    match place {
        Some(place) if kept.is_none_or(|f| place < f.place) => Some(Fault {
            kind: 3,
            place,
            state: s,
        }),
        _ => kept,
    }
}

// The graphs and the map with both tables of first places, and which hops of graph 1 are silent.
#[derive(Clone, Copy)]
struct Tabled<'a> {
    located: Located<'a>,
    starts1: &'a [u16; STARTS],
    starts2: &'a [u16; STARTS],
    silent: &'a [bool; MOST_HOPS],
    ghost table1: { SuccessorIndex located.mapped.hops1.now starts1.now } by { successor_index_prop _ _ },
    ghost table2: { SuccessorIndex located.mapped.hops2.now starts2.now } by { successor_index_prop _ _ },
    ghost chosen: { Chooses located.mapped.hops1.now (silent_at located.mapped.hops1.now) silent.now } by { chooses_prop _ _ _ },
}

impl<'a> Tabled<'a> {
    // The faults of the pairs of a hop of graph 2 and the state s, and the first place of such a
    // hop.
    fn unmatched_of(self, s: OldState, work: &mut Workspace) -> OfState
        requires state { s.0 < self.located.mapped.shape1.states }
        requires fresh { Fresh self.located.mapped.hops2.now work.old.stamps (s.0 + 1) }
        ensures counts { result.faults ≡ unmatched_of self.entry.located.mapped.shape1 self.entry.located.mapped.hops1.now
            self.entry.located.mapped.hops2.now self.entry.located.mapped.map.now s.0 }
        ensures names { result.place ≡ place_below (count self.entry.located.mapped.hops2.now)
            (unmatched_place_of self.entry.located.mapped.shape1 self.entry.located.mapped.hops1.now
            self.entry.located.mapped.hops2.now self.entry.located.mapped.map.now s.0) }
        ensures fresh { Fresh self.entry.located.mapped.hops2.now work.new.stamps (s.0 + 1 + 1) }
    {
        let mapped = self.located.mapped;
        let silent = self.silent;
        let r = mapped.image(s);
        let k = s.0 + 1;
        let graph1 = Indexed {
            shape: mapped.shape1,
            index: Index {
                hops: mapped.hops1,
                starts: self.starts1,
            },
        };
        reach(graph1, silent, s, &mut work.seen, &mut work.queue);
        stamp_all(
            self.located,
            self.starts1,
            &work.seen,
            &mut work.stamps,
            r,
            k,
        );
        let index2 = Index {
            hops: mapped.hops2,
            starts: self.starts2,
        };
        let stamped = Stamped {
            index2,
            stamps: &work.stamps,
            r,
            k,
        };
        stamped.unstamped()
    }

    // The third sum, with stamps that begin at 0.
    fn unmatched_faults(self, work: &mut Workspace) -> Share
        requires { Fresh self.located.mapped.hops2.now work.old.stamps 1 }
        ensures counts { result.faults ≡ unmatched_faults self.entry.located.mapped.shape1
            self.entry.located.mapped.hops1.now self.entry.located.mapped.hops2.now self.entry.located.mapped.map.now }
        ensures names { result.first ≡ named (first_unmatched self.entry.located.mapped.shape1
            self.entry.located.mapped.hops1.now self.entry.located.mapped.hops2.now self.entry.located.mapped.map.now) }
    {
        let mut faults = 0;
        let mut first = None;
        for s in 0..self.located.mapped.shape1.states as usize {
            let of = self.unmatched_of(OldState(s as u16), work);
            faults += of.faults;
            first = keep(first, of.place, s as u16);
        }
        Share { faults, first }
    }
}

// The third sum: 1 for each pair of a hop of graph 2 and a state of graph 1 that is a fault, and
// the first of them.
pub fn all_unmatched(located: Located<'_>, starts2: &[u16; STARTS]) -> Share
    requires { SuccessorIndex located.mapped.hops2.now starts2.now }
    ensures counts { result.faults ≡ unmatched_faults located.entry.mapped.shape1
        located.entry.mapped.hops1.now located.entry.mapped.hops2.now located.entry.mapped.map.now }
    ensures names { result.first ≡ named (first_unmatched located.entry.mapped.shape1
        located.entry.mapped.hops1.now located.entry.mapped.hops2.now located.entry.mapped.map.now) }
{
    let mut starts1 = [0u16; STARTS];
    put_starts(located.mapped.hops1, &mut starts1);
    let silent = silent_flags(located.mapped.hops1);
    let mut work = Workspace {
        seen: [false; MOST_STATES],
        queue: [0; MOST_STATES],
        stamps: [0; MOST_HOPS],
    };
    let tabled = Tabled {
        located,
        starts1: &starts1,
        starts2,
        silent: &silent,
    };
    tabled.unmatched_faults(&mut work)
}
