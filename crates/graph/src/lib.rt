// Graphs (labelled transition systems) as flat lists of hops (transitions): their types and limits,
// the hop at a place, the order of hops, and the search for a hop.
// Other crates read hops through the accessors of hops.rt, by places that count hops, so only this
// crate knows how a hop is laid out in the list. Two hops with the same from, label and to are
// alike (specs/Hops): order, search and meaning look at no more of a hop. Answers (accepted, or
// refused with number, table and place) are here too.
// Uses `base_bounded` for statements over the places of a list.
#![tactic(auto)]

pub mod hops; // hops.rt: what stands at a place of a flat list
pub mod map; // map.rt: a map at a state
pub mod order; // order.rt: the one comparison of hops
pub mod search; // search.rt: the one search, and the places of a state's hops
pub mod tables; // tables.rt: 16-bit numbers of a table as places
pub mod answers; // answers.rt: the numbers of an acceptance and of a refusal

// The limits of document 01, for code and for the lengths of arrays.
pub const MOST_STATES: usize = 1024;

pub const MOST_LABELS: usize = 1024;

pub const MOST_HOPS: usize = 4096;

// "four numbers a hop", and how many numbers a graph's list has at most.
pub const NUMBERS_A_HOP: usize = 4;

pub const MOST_NUMBERS: usize = NUMBERS_A_HOP * MOST_HOPS;

// Where the to stands among a hop's numbers, for a sort that reads the list by one of its columns.
pub const TO_COLUMN: usize = 2;

// A hop: from one state, by a label, to another. Label 0 is silent. Its source line, 0 for none, is
// carried along: order, search and meaning do not look at it.
// In the field: a transition of a labelled transition system; label 0 is tau.
#[derive(Clone, Copy)]
pub struct Hop {
    pub from: u16,
    pub label: u16,
    pub to: u16,
    pub line: u16,
}

// Which of a hop's numbers is its key, where hops are sorted or put into a table. The cases stand
// as the numbers do in the list; nothing rests on their order.
#[derive(Clone, Copy)]
pub enum Key {
    From,
    Label,
    To,
}

// What a graph has besides its hops. Any 32-bit number passes through unchanged, and is refused as
// it is.
// In the field: what a labelled transition system has besides its transitions.
#[derive(Clone, Copy, PartialEq, Eq, Debug)]
pub struct Shape {
    pub states: u32,
    pub labels: u32,
    pub initial: u32,
}

// Why an entry refuses: the rows of document 01's table of answers, and of document 02's, each with
// its place where it has one. `specs/Answers` gives the number and the place of each
// (`refusal_answer`).
#[derive(Clone, Copy, PartialEq, Eq, Debug)]
pub enum Refusal {
    // a count outside its limits, or a list that holds no whole hops
    Counts,
    // the initial state is not below the state count
    Initial,
    // the first hop with a state or a label not below its count
    HopOutside(usize),
    // the first hop that is not above the one before
    HopNotAscending(usize),
    // the lowest state on a ring
    Ring(usize),
    // an output is too short
    OutputTooShort,
    // the label counts of the two graphs differ
    LabelCounts,
    // the length of a map, or the first of its entries that is no state
    MapEntry(usize),
    // the place that is asked of has no silent hop
    NotSilent,
    // more rounds than may be asked of
    TooManyRounds,
    // the file ends before its contents: its length
    FileTooShort(usize),
    // a bit of the file that may not be set
    FileBits,
    // a byte too many in the file
    FileTooLong(usize),
    // a name that is not admitted
    BadName(usize),
    // no sense of confluence has the number
    NoSense,
}

// What a caller in C gets of an answer: document 01's number, table and place.
#[derive(Clone, Copy, PartialEq, Eq, Debug)]
pub struct Answer {
    pub number: u32,
    pub table: u32,
    pub place: usize,
}

// A state's number in the graph that is read, graph 1 of the audit, and in the short graph,
// graph 2. Only the map leads from one to the other. Code that serves both graphs takes and returns
// bare numbers.
#[derive(Clone, Copy, PartialEq, Eq, Debug)]
pub struct OldState(pub u16);

#[derive(Clone, Copy, PartialEq, Eq, Debug)]
pub struct NewState(pub u16);

// A label's number, which is neither.
#[derive(Clone, Copy, PartialEq, Eq, Debug)]
pub struct Label(pub u16);
