// How test programs print lists, answers and shapes by a format: each number behind a space.
// It serves `test_check`, `test_records`, `test_hops_of`, `test_equations` and `test_round_trip`.
// Uses `graph` for answers and shapes.
#![tactic(auto)]

use graph::{Answer, Shape};
use std::fmt;

// The elements of a list.
#[derive(Clone, Copy)]
pub struct Spaced<'a, T>(pub &'a [T]);

impl<T: fmt::Display> fmt::Display for Spaced<'_, T> {
    fn fmt<W: fmt::Write>(&self, f: &mut fmt::Formatter<W>) -> fmt::Result {
        for x in self.0 {
            write!(f, " {x}")?;
        }
        Ok(())
    }
}

// Number, table and place.
#[derive(Clone, Copy)]
pub struct AnswerNumbers(pub Answer);

impl fmt::Display for AnswerNumbers {
    fn fmt<W: fmt::Write>(&self, f: &mut fmt::Formatter<W>) -> fmt::Result {
        let Answer {
            number,
            table,
            place,
        } = self.0;
        write!(f, " {number} {table} {place}")
    }
}

// States, labels and initial state.
#[derive(Clone, Copy)]
pub struct ShapeNumbers(pub Shape);

impl fmt::Display for ShapeNumbers {
    fn fmt<W: fmt::Write>(&self, f: &mut fmt::Formatter<W>) -> fmt::Result {
        let Shape {
            states,
            labels,
            initial,
        } = self.0;
        write!(f, " {states} {labels} {initial}")
    }
}

pub fn shape_of(states: u32, labels: u32, initial: u32) -> Shape {
    Shape {
        states,
        labels,
        initial,
    }
}
