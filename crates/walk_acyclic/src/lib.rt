// Which states are certainly on no ring (silent cycle): those that can be ranked, which is to say
// that all their silent (tau) hops lead to states ranked before.
// Where silent hops lead upward, one pass in descending order ranks every state. Where states are
// left, a depth-first search along the silent hops visits the successors of a state before the
// state itself (postorder), so that all that can be ranked is, and no hop is passed more than a few
// times. The search only chooses the order: each state is ranked by `rank_one`, which looks at its
// hops.
// Uses `graph_index` for the hops of a state, `walk_silent` for what a ring is, `base_flag` for
// tables of `bool` or bytes.
// What `as u16` narrows here is a place or the state count, and the check proves that it fits.
#![tactic(auto)]

ghost use Rattle.std.specs.Prelude.{◌≡◌, ℕ, ◌+◌, ◌<◌, ◌≤◌, ◌||◌, length, map, drop, MatchOption};
ghost use Rattle.base_bounded.specs.Quantifiers.{tally};
ghost use Rattle.graph.specs.Answers.{most_states, most_hops};
ghost use Rattle.graph.specs.Hops.{count};
ghost use Rattle.walk_reach.specs.Internal.Frontier.{visited};
ghost use Rattle.walk_acyclic.specs.Internal.Ranks.{ends_visited, OffRings};

use base_flag::Flag;
use graph::hops::{from_at, hop_count, label_at, to_at};
use graph::{MOST_STATES, OldState};
use graph_index::Indexed;

// The states that the search has entered, and for each the place of the hop by which it was. The
// place past the last hop stands for none: a table of `Option` would be larger.
#[derive(Drop)]
struct Search {
    entered: [bool; MOST_STATES],
    via: [u16; MOST_STATES],
}

impl Search {
    // Whether the search may still enter t: it is neither ranked nor entered.
    fn may_enter(&self, t: OldState, ranked: &[bool; MOST_STATES]) -> bool
        requires { t.0 < most_states }
    {
        let at = usize::from(t.0);
        !ranked[at] && !self.entered[at]
    }

    // Enters t and records the place of the hop by which it is entered.
    fn enter(&mut self, t: OldState, place: usize)
        requires state { t.0 < most_states }
        requires place { place ≤ most_hops }
    {
        let at = usize::from(t.0);
        self.entered[at] = true;
        self.via[at] = place as u16;
    }

    // The place of the hop by which t was entered.
    fn place(&self, t: OldState) -> usize
        requires { t.0 < most_states }
    {
        usize::from(self.via[usize::from(t.0)])
    }
}

// A graph and which of its states are ranked so far. None of these is on a ring.
#[derive(Drop)]
pub struct Ranking<'a> {
    pub graph: Indexed<'a>,
    pub ranked: [bool; MOST_STATES],
    ghost unringed: { OffRings graph.index.hops.now graph.shape.states ranked },
}

// Whether every silent hop of v leads to a ranked state. The silent hops are the first of its hops.
pub fn ends_ranked<F: Flag>(graph: Indexed<'_>, v: OldState, ranked: &[F]) -> bool
    requires capacity { graph.shape.states ≤ length ranked.now }
    requires state { v.0 < graph.shape.states }
    ensures { result ≡ ends_visited graph.entry.index.hops.now (map F.raised ranked.now) v.0 }
{
    for i in graph.index.first(v.0)..graph.index.past(v.0) {
        if label_at(graph.index.hops, i).0 != 0 {
            return true;
        }
        let is_unranked = !ranked[usize::from(to_at(graph.index.hops, i).0)].is_raised();
        if is_unranked {
            return false;
        }
    }
    true
}

impl<'a> Ranking<'a> {
    ghost use Rattle.walk_acyclic.specs.Internal.Ranking.{Ranked};

    // Ranks v if it can be ranked now; returns how many states that ranked.
    // That is 0 or 1, and no `bool`: its callers add it up, and so do their contracts.
    fn rank_one(&mut self, v: OldState) -> usize
        requires { v.0 < self.old.graph.shape.states }
        ensures { Ranked self.old result self.new }
    {
        let at = usize::from(v.0);
        if self.ranked[at] || !ends_ranked(self.graph, v, &self.ranked) {
            return 0;
        }
        self.ranked[at] = true;
        1
    }

    // Goes once through the states, downward; returns how many it ranked.
    fn rank_once(&mut self) -> usize
        ensures { Ranked self.old result self.new }
    {
        let mut got = 0;
        for v in (0..self.graph.shape.states as u16).rev() {
            got += self.rank_one(OldState(v));
        }
        got
    }

    // The first place from `first` on and before `past` whose hop is silent and leads to a state
    // that the search may enter, if only silent hops stand before it.
    fn next_unentered(&self, first: usize, past: usize, search: &Search) -> Option<usize>
        requires { past ≤ count self.now.graph.index.hops.now }
        ensures { MatchOption result Unit (λ i. i < past) }
    {
        let hops = self.graph.index.hops;
        for i in first..past {
            if label_at(hops, i).0 != 0 {
                return None;
            }
            if search.may_enter(to_at(hops, i), &self.ranked) {
                return Some(i);
            }
        }
        None
    }

    // Enters a state that v leads to by a silent hop from the place on, then one that this state
    // leads to, and so on until there is none to enter; returns the last one. No state is entered
    // twice, so the loop has no more steps than there are states.
    fn descend(&self, v: OldState, place: usize, search: &mut Search) -> OldState
        requires { v.0 < self.now.graph.shape.states }
        ensures { result.0 < self.now.graph.shape.states }
    {
        let graph = self.graph;
        let mut top = v;
        let mut first = place;
        for _ in 0..graph.shape.states {
            let past = graph.index.past(top.0);
            let Some(i) = self.next_unentered(first, past, search) else {
                return top;
            };
            top = to_at(graph.index.hops, i);
            search.enter(top, i);
            first = graph.index.first(top.0);
        }
        top
    }

    // Ranks the states that v leads to and then v, as far as they can be ranked, unless v was
    // ranked or entered before; returns how many states it ranked. Every state is left once, so the
    // loop has no more steps than there are states. The place by which v is entered is past the
    // last hop: there the search ends.
    fn rank_from(&mut self, v: OldState, search: &mut Search) -> usize
        requires { v.0 < self.old.graph.shape.states }
        ensures { Ranked self.old result self.new }
    {
        if !search.may_enter(v, &self.ranked) {
            return 0;
        }
        let graph = self.graph;
        let none = hop_count(graph.index.hops);
        search.enter(v, none);
        let mut from = v;
        let mut first = graph.index.first(v.0);
        let mut got = 0;
        for _ in 0..graph.shape.states {
            let top = self.descend(from, first, search);
            got += self.rank_one(top);
            let i = search.place(top);
            if none <= i {
                return got;
            }
            from = from_at(graph.index.hops, i);
            first = i + 1;
        }
        got
    }

    // Ranks every state that can be ranked: by one pass and, if that leaves states, by a search
    // from each that is left; returns how many states it ranked.
    pub fn rank_all(&mut self) -> usize
        ensures { Ranked self.old result self.new }
    {
        let states = self.graph.shape.states;
        let mut got = self.rank_once();
        if got == states as usize {
            return got;
        }
        let mut search = Search {
            entered: [false; MOST_STATES],
            via: [0; MOST_STATES],
        };
        for v in (0..states as u16).rev() {
            got += self.rank_from(OldState(v), &mut search);
        }
        got
    }
}

// The flags of the states, as `bool`.
fn flags_of<F: Flag>(states: usize, ranked: &[F]) -> [bool; MOST_STATES]
    requires most { states ≤ most_states }
    requires capacity { states ≤ length ranked.now }
    ensures { (t : ℕ) → t < states → visited result t ≡ visited (map F.raised ranked.now) t }
{
    let mut flags = [false; MOST_STATES];
    for s in 0..states {
        flags[s] = ranked[s].is_raised();
    }
    flags
}

// Writes yes for each state that has its flag, and nothing else.
fn put_flags<F: Flag>(states: usize, flags: &[bool; MOST_STATES], ranked: &mut [F])
    requires most { states ≤ most_states }
    requires capacity { states ≤ length ranked.old }
    ensures states { (t : ℕ) → t < states →
        visited (map F.raised ranked.new) t ≡ (visited flags.now t || visited (map F.raised ranked.old) t) }
    ensures rest { drop states ranked.new ≡ drop states ranked.old }
{
    for s in 0..states {
        let is_ranked = flags[s];
        if is_ranked {
            ranked[s] = F::of(true);
        }
    }
}

// Ranks every state that can be ranked, as `Ranking::rank_all` does, in a table that the caller has
// made; returns how many states it ranked. The states that are ranked there before are on no ring.
pub fn rank_all<F: Flag>(graph: Indexed<'_>, ranked: &mut [F]) -> usize
    requires capacity { graph.shape.states ≤ length ranked.old }
    requires unringed { OffRings graph.index.hops.now graph.shape.states (map F.raised ranked.old) }
    ensures unringed { OffRings graph.entry.index.hops.now graph.entry.shape.states (map F.raised ranked.new) }
    ensures gained { tally graph.entry.shape.states (visited (map F.raised ranked.old)) + result
        ≤ tally graph.entry.shape.states (visited (map F.raised ranked.new)) }
    ensures rest { drop graph.entry.shape.states ranked.new ≡ drop graph.entry.shape.states ranked.old }
{
    let states = graph.shape.states as usize;
    let mut ranking = Ranking {
        graph,
        ranked: flags_of(states, ranked),
    };
    let got = ranking.rank_all();
    put_flags(states, &ranking.ranked, ranked);
    got
}
