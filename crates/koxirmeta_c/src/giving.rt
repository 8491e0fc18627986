// Answers handed over: what a call answers, and what it leaves in the memory that it was lent.
ghost use Rattle.std.specs.Prelude.{◌≡◌, ◌&&◌, eqb, length};
ghost use Rattle.octagon.specs.Answers.{outcome};
ghost use Rattle.koxirmeta_c.specs.Calls as calls;
ghost use Rattle.koxirmeta_c.specs.Outlines.{is_pair};

use crate::{ACCEPTED, WRONG_LENGTH};
use octagon::Refusal;

// Hands one value over, where the slices that were read have the right lengths.
#[tactic(auto, unfolding(crate::specs::Calls::fitted, crate::specs::Calls::status))]
pub fn give_value<T: Copy>(answer: Result<T, Refusal>, fits: bool, to: &mut T) -> u32
    ensures { calls.Hands (calls.fitted fits (outcome answer)) (λ a. a) to.old to.new result }
{
    if !fits {
        return WRONG_LENGTH;
    }
    match answer {
        Ok(value) => {
            *to = value;
            ACCEPTED
        }
        Err(refusal) => refusal.number(),
    }
}

// Hands so many numbers over, where `out` has a place for each.
#[tactic(auto, unfolding(crate::specs::Calls::fitted, crate::specs::Calls::status))]
pub fn give_array<T: Copy, const N: usize>(
    answer: Result<[T; N], Refusal>,
    fits: bool,
    out: &mut [T],
) -> u32
    ensures { calls.Hands (calls.fitted (fits && eqb (length out.old) N) (outcome answer)) (λ a. a) out.old out.new result }
{
    if !fits | (out.len() != N) {
        return WRONG_LENGTH;
    }
    match answer {
        Ok(values) => {
            out.copy_from_slice(&values);
            ACCEPTED
        }
        Err(refusal) => refusal.number(),
    }
}

// Hands a start and so many numbers over, where `start` has two places and `numbers` one for each.
#[tactic(auto, unfolding(crate::specs::Calls::fitted, crate::specs::Calls::status))]
pub fn give_start_and<const N: usize>(
    answer: Result<([i32; 2], [u32; N]), Refusal>,
    fits: bool,
    start: &mut [i32],
    numbers: &mut [u32],
) -> u32
    ensures { calls.Hands (calls.fitted (fits && (is_pair start.old && eqb (length numbers.old) N)) (outcome answer.entry)) (λ p. p) (start.old, numbers.old) (start.new, numbers.new) result }
{
    if !fits | (start.len() != 2) | (numbers.len() != N) {
        return WRONG_LENGTH;
    }
    match answer {
        Ok(parts) => {
            let from = parts.0;
            let values = parts.1;
            start.copy_from_slice(&from);
            numbers.copy_from_slice(&values);
            ACCEPTED
        }
        Err(refusal) => refusal.number(),
    }
}
