// The four senses (notions) of tau-confluence, R1, R2, R3 and R8, as one condition with the sense
// as an argument, and the marked set of a sense.
// Proved once for all four: the condition is monotone in the set, and the marked set is of the
// sense and contains every set of it. The sense that a caller asks by number is here too, with
// row 19, which refuses any other number; and the sense whose marks a number has, refused or not.
// Uses `lts` for what a sense is, over any relation, `mark_confluence` for document 01's condition,
// which is sense 1, and `base_fixpoint` for the rounds of any condition.
#![tactic(auto)]

ghost use Rattle.std.specs.Prelude.{◌≡◌};
ghost use Rattle.mark_senses.specs.Senses.{sense_of};
ghost use Rattle.mark_senses.specs.Internal.Numbers.{GivesSense, condition_of};

use graph::Refusal;

// The senses, by RR-7000's names.
// In the field: a notion of confluence.
#[derive(Clone, Copy, PartialEq, Eq, Debug)]
pub enum Sense {
    R1,
    R2,
    R3,
    R8,
}

// The sense with the number, or row 19.
impl TryFrom<u32> for Sense {
    type Error = Refusal;

    ghost try_from_gives = { GivesSense };

    #[tactic(auto, unfolding(crate::specs::Senses::is_sense, crate::specs::Senses::sense_answer))]
    fn try_from(number: u32) -> Result<Sense, Refusal> {
        match number {
            1 => Ok(Sense::R1),
            2 => Ok(Sense::R2),
            3 => Ok(Sense::R3),
            8 => Ok(Sense::R8),
            _ => Err(Refusal::NoSense),
        }
    }
}

impl Sense {
    // The sense with the condition that the number has: R8 for every number but 1, 2 and 3.
    // It refuses none, as `sense_of` does not; an entry asks `try_from`.
    #[tactic(auto, unfolding(crate::specs::Senses::sense_of))]
    pub fn of_number(number: u32) -> Sense
        ensures { condition_of result ≡ sense_of number }
    {
        match number {
            1 => Sense::R1,
            2 => Sense::R2,
            3 => Sense::R3,
            _ => Sense::R8,
        }
    }
}
