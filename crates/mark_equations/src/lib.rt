// Whether one silent (tau) hop survives k rounds of marking, by RR-7000's equations X, Y and Z as
// three mutually recursive functions.
// The number of rounds bounds the recursion. A memo table is passed down the cycle, so that each
// hop is decided once for each number of rounds. `mark_entry_round` asks X for the entry; the only
// limit on k here is the length of the table.
// Uses `mark_confluence` for the equations and the rounds, `graph` for hops, `graph_index` for a
// state's hops, by label and by hop.
#![tactic(auto)]

ghost use Rattle.std.specs.Prelude.{◌≡◌, ◌<◌, Bool, refl};
ghost use Rattle.graph.specs.Hops.{count, from, label, to};
ghost use Rattle.graph.specs.Answers.{most_states};
ghost use Rattle.mark_confluence.specs.Rounds.{closing, survives};
ghost use Rattle.mark_confluence.specs.Internal.Rounds.{answered};
ghost use Rattle.mark_equations.specs.declared.Known.{Known};
ghost use Rattle.mark_equations.specs.declared.Known.TheVariants.{Unknown};
ghost use Rattle.mark_equations.specs.Internal.Bytes.{byte_tells, byte_told};
ghost use Rattle.mark_equations.specs.Internal.Known.{known_of, byte_of, word_for, byte_for, Right, Prepared};

use graph::hops::{from_at, hop_of, label_at, to_at};
use graph::{MOST_HOPS, OldState};
use graph_index::Index;

// What an entry of the table says of a hop and a number of rounds.
#[derive(Clone, Copy, PartialEq, Eq)]
pub enum Known {
    Unknown,
    Falls,
    Survives,
}

// A caller may lend bytes of any number, of which 1 and 2 alone say something.
impl From<u8> for Known {
    ghost from_gives = { λ byte known. known ≡ known_of byte };

    fn from(byte: u8) -> Known {
        match byte {
            1 => Known::Falls,
            2 => Known::Survives,
            _ => Known::Unknown,
        }
    }
}

// The byte that is written for it.
impl From<Known> for u8 {
    ghost from_gives = { λ known byte. byte ≡ byte_of known };

    fn from(known: Known) -> u8 {
        match known {
            Known::Unknown => 0,
            Known::Falls => 1,
            Known::Survives => 2,
        }
    }
}

// What an entry of the table may be: a `Known`, or a byte. One proof serves both.
pub trait Memo: Copy {
    /// The entry that says nothing.
    ghost nothing: { Self };
    /// The entry for an answer.
    ghost entry_for: { Bool → Self };
    /// What an entry says.
    ghost says: { Self → Known };

    /// Reads what the entry says.
    fn known(self) -> Known
        ensures { result ≡ says self };

    /// Makes the entry for an answer.
    fn of(answer: bool) -> Self
        ensures { result ≡ entry_for answer };

    /// The entry that says nothing says `Unknown`.
    ghost no_answer: { says nothing ≡ Unknown };

    /// The entry for an answer says that answer.
    ghost tells: { (v : Bool) → says (entry_for v) ≡ word_for v };

    /// No other entry says it.
    ghost told: { (e : Self) (v : Bool) → says e ≡ word_for v → e ≡ entry_for v };
}

impl Memo for Known {
    ghost nothing = { Unknown };

    ghost entry_for = { word_for };

    ghost says = { λ known. known };

    fn known(self) -> Known {
        self
    }

    fn of(answer: bool) -> Known {
        if answer {
            Known::Survives
        } else {
            Known::Falls
        }
    }

    ghost no_answer = { refl };

    ghost tells = { λ v. refl };

    ghost told = { λ known v is. is };
}

impl Memo for u8 {
    ghost nothing = { 0 };

    ghost entry_for = { byte_for };

    ghost says = { known_of };

    fn known(self) -> Known {
        Known::from(self)
    }

    fn of(answer: bool) -> u8 {
        u8::from(Known::of(answer))
    }

    ghost no_answer = { refl };

    ghost tells = { byte_tells };

    ghost told = { byte_told };
}

// X: does the silent hop at place i survive k rounds? The caller lends the table, of `Known` or of
// bytes.
#[cycle(x_y_z)]
pub fn x<M: Memo>(index: Index<'_>, i: usize, k: usize, known: &mut [M]) -> bool
    requires place { i < count index.hops.now }
    requires silent { label index.hops.now i ≡ 0 }
    requires prepared { Prepared M.nothing M.entry_for index.hops.now known.old k }
    ensures answers { result ≡ survives index.entry.hops.now k
        (from index.entry.hops.now i) (to index.entry.hops.now i) }
    ensures keeps { Right M.nothing M.entry_for index.entry.hops.now known.new }
{
    if k == 0 {
        return true;
    }
    let at = k * MOST_HOPS + i;
    match known[at].known() {
        Known::Unknown => {}
        Known::Falls => return false,
        Known::Survives => return true,
    }
    let s1 = from_at(index.hops, i);
    let s2 = to_at(index.hops, i);
    for j in index.first(s1.0)..index.past(s1.0) {
        if !y(index, j, s2, k - 1, known) {
            known[at] = M::of(false);
            return false;
        }
    }
    known[at] = M::of(true);
    true
}

// Y: is the hop at place i, tried against a silent hop to s2, answered from s2 with a closing that
// survives k rounds?
#[cycle(x_y_z)]
fn y<M: Memo>(index: Index<'_>, i: usize, s2: OldState, k: usize, known: &mut [M]) -> bool
    requires place { i < count index.hops.now }
    requires state { s2.0 < most_states }
    requires prepared { Prepared M.nothing M.entry_for index.hops.now known.old k }
    ensures answers { result ≡ answered index.entry.hops.now (survives index.entry.hops.now k) s2.0 i }
    ensures keeps { Right M.nothing M.entry_for index.entry.hops.now known.new }
{
    let a = label_at(index.hops, i);
    let s3 = to_at(index.hops, i);
    for j in index.first_labelled(s2.0, a)..index.past_labelled(s2.0, a) {
        let s4 = to_at(index.hops, j);
        if z(index, s3, s4, k, known) {
            return true;
        }
    }
    a.0 == 0 && z(index, s3, s2, k, known)
}

// Z, the closing: is s3 the state s4, or does the silent hop s3 to s4 survive k rounds?
#[cycle(x_y_z)]
fn z<M: Memo>(index: Index<'_>, s3: OldState, s4: OldState, k: usize, known: &mut [M]) -> bool
    requires state { s3.0 < most_states }
    requires prepared { Prepared M.nothing M.entry_for index.hops.now known.old k }
    ensures answers { result ≡ closing (survives index.entry.hops.now k) s3.0 s4.0 }
    ensures keeps { Right M.nothing M.entry_for index.entry.hops.now known.new }
{
    if s3 == s4 {
        return true;
    }
    match index.find(hop_of(s3.0, 0, s4.0)) {
        Ok(i) => x(index, i, k, known),
        Err(_) => false,
    }
}
