// What a call at a line checks after refusals 1 to 7, which are those of every decode call (check_coded): 16
// and 17.
#![tactic(auto)]

ghost use Rattle.std.specs.Prelude.{◌≡◌};
ghost use Rattle.check_verdicts.specs.Verdicts.{no_fault, verdict_by};
ghost use Rattle.check_line.specs.LineChecks.{line_checks, line_says};
ghost use Rattle.check_line.specs.declared.LineRefusal.TheVariants.{Call};

use check_refusals::Refusal;
use row_bands::{Row, last_stop};

// Why a call at a line is refused: as any decode call, by its line, which lies outside the row, or by
// its output, which has another length than its spectrum.
#[derive(Clone, Copy, Debug, PartialEq, Eq)]
pub enum LineRefusal {
    Call(Refusal),
    Line,
    OutputLength,
}

impl From<Refusal> for LineRefusal {
    ghost from_gives = { λ why refusal. refusal ≡ Call why };

    fn from(why: Refusal) -> LineRefusal {
        LineRefusal::Call(why)
    }
}

// The checks 16 and 17 of line n, from a spectrum of so many lines into an output of so many. The line
// after the row's last is a line here: nothing is left to filter there.
pub fn check_line(row: Row, lines: usize, n: usize, output: usize) -> Result<(), LineRefusal>
    ensures { verdict_by line_says result ≡ line_checks row lines n output no_fault }
{
    if n < row.first.start || n > last_stop(row) {
        return Err(LineRefusal::Line);
    }
    if output != lines {
        return Err(LineRefusal::OutputLength);
    }
    Ok(())
}
