// Where a program stands that takes standard input piece by piece, as `read`, `write` and `bits` do: how it begins,
// what is known of it before each read, and how it goes on after one. It knows nothing of what is made of the input.
//
// The loop over the reads stays each program's own: it has three lines, and a shared one would take a trait with laws.
#![tactic(auto)]

ghost use Rattle.std.specs.Prelude.{◌≡◌, ◌≤◌, ◌<◌, true};
ghost use Rattle.io_streams.specs.Reads.{most_reads};

use io_streams::{complain_of_reads, is_spent};

// Where a program stands between two reads: the number of the next unit of its input, be it a block or a record,
// how many bytes of a unit not yet whole are held at the start of the piece, how many reads were made, and whether
// another is to be made. The piece is no `Text`: the system fills it from `held` on, and what a read leaves is promised of
// the whole piece.
#[derive(Clone, Copy)]
pub struct Standing {
    pub number: u64,
    pub held: usize,
    pub reads: u64,
    pub goes_on: bool,
}

// Where a program stands that is ready for a piece more of its input: the next unit's number is no more than `MOST`,
// less than a unit of `UNIT` bytes is held, and a read is left to make.
#[derive(Clone, Copy)]
pub struct Ready<const UNIT: usize, const MOST: u64> {
    pub standing: Standing,
    pub ghost numbered: { standing.number ≤ MOST },
    pub ghost unwhole: { standing.held < UNIT },
    pub ghost left: { standing.reads < most_reads },
}

impl Standing {
    ghost use Rattle.io_turns.specs.Stands.{at_start, after_read};

    // A program begins.
    pub fn begun() -> Standing
        ensures { result ≡ at_start }
    {
        Standing {
            number: 0,
            held: 0,
            reads: 0,
            goes_on: true,
        }
    }

    // One read more is made. Where the program goes on and none is left to make, it ends there, and that is said as
    // a failure: no run makes so many, but none may end as if its output were whole. It requires that there was one left
    // to make, which a `Ready` has.
    pub fn after_read(self, rt: &HostRuntime) -> Standing
        requires { self.reads < most_reads }
        ensures counted { result ≡ after_read self }
        ensures left { result.goes_on ≡ true → result.reads < most_reads }
    {
        let reads = self.reads + 1;
        let is_spent = is_spent(self.goes_on, reads);
        if is_spent {
            complain_of_reads(rt);
        }
        Standing {
            reads,
            goes_on: self.goes_on && !is_spent,
            ..self
        }
    }
}
