// How the exported functions give a verdict: four numbers, which C and Rust take by value. The crate `tns` calls these
// functions, each with what a door has just answered; replay_record gives an index as an accepted answer's bits.
#![tactic(auto)]

ghost use Rattle.std.specs.Prelude.{◌≡◌, ◌≤◌};
ghost use Rattle.check_verdicts.specs.Verdicts.{placed, accepted, refused, place_of, of_fault, no_bits, its_bits, verdict_by};
ghost use Rattle.check_refusals.specs.Refusals.{says};
ghost use Rattle.check_line.specs.LineChecks.{line_says};
ghost use Rattle.answer_call.specs.Answers.{answer_for};

use check_line::LineRefusal;
use check_refusals::Refusal;

// What a call answers. Refusal 0 says that it is accepted, and any other is the refusal's number.
// Place and found are those of refusals 6 and 7, and 0 else. Bits are those of an accepted cost, and
// 0 else.
#[repr(C)]
#[derive(Clone, Copy)]
pub struct Answer {
    pub refusal: u16,
    pub place: u16,
    pub found: u16,
    pub bits: u16,
}

// An accepted call with its bits, or with 0 where it has none.
pub fn accepted(bits: u16) -> Answer
    ensures { result ≡ answer_for its_bits (accepted bits) }
{
    Answer {
        refusal: 0,
        place: 0,
        found: 0,
        bits,
    }
}

// A refused call, by its numbers. It has no bits.
fn told(refusal: u16, place: u16, found: u16) -> Answer
    ensures { result ≡ answer_for no_bits (refused (placed refusal place found)) }
{
    Answer {
        refusal,
        place,
        found,
        bits: 0,
    }
}

// A refused call. It requires a place that fits 16 bits. The door has checked that: a place is one of 2
// orders or of 16 indices (`Small` has it for each door). It is a clause, and no limit in `Refusal`, which may name
// any place.
pub fn refused(why: Refusal) -> Answer
    requires { place_of (says why) ≤ 15 }
    ensures { result ≡ answer_for no_bits (refused (says why)) }
{
    told(
        u16::from(why.number()),
        why.place() as u16,
        u16::from(why.found()),
    )
}

// A refused call at a line. It requires what `refused` does, and its one caller requires it too. The numbers of the two
// refusals that only such calls have stand here alone.
fn refused_at_line(why: LineRefusal) -> Answer
    requires { place_of (line_says why) ≤ 15 }
    ensures { result ≡ answer_for no_bits (refused (line_says why)) }
{
    match why {
        LineRefusal::Call(why) => refused(why),
        LineRefusal::Line => told(16, 0, 0),
        LineRefusal::OutputLength => told(17, 0, 0),
    }
}

// What `save` and `restart` answer. It requires a place that fits, as `refused` does: both have checked
// it.
pub fn told_at_line(answer: Result<(), LineRefusal>) -> Answer
    requires { of_fault place_of (verdict_by line_says answer) ≤ 15 }
    ensures { result ≡ answer_for no_bits (verdict_by line_says answer) }
{
    match answer {
        Ok(()) => accepted(0),
        Err(why) => refused_at_line(why),
    }
}

// The answer of `cost_2048ths` in numbers. It requires a place that fits, as `refused` does: the call has
// checked it. `tns_cost` has the same two cases in its own body: through this function it was slower
// (docs/DECISIONS.md, "Speed").
pub fn told_cost(answer: Result<u16, Refusal>) -> Answer
    requires { of_fault place_of (verdict_by says answer) ≤ 15 }
    ensures { result ≡ answer_for its_bits (verdict_by says answer) }
{
    match answer {
        Ok(bits) => accepted(bits),
        Err(why) => refused(why),
    }
}
