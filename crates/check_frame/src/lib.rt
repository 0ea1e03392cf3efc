// The checks of a frame, 1 to 3, which encode and decode share, and the row of a frame that they find no fault
// with.
#![tactic(auto)]

ghost use Rattle.std.specs.Prelude.{◌≡◌};
ghost use Rattle.check_verdicts.specs.Verdicts.{accepted, verdict_by};
ghost use Rattle.check_refusals.specs.Refusals.{says};
ghost use Rattle.row_bands.specs.Bands.{row_of};
ghost use Rattle.check_frame.specs.Frames.{length_check, frame_of};

use check_refusals::Refusal;
use check_side::check_codes;
use row_bands::{Row, last_stop, row_of};
use row_durations::{Duration, longest};

// Check 3 of a frame whose duration and bandwidth are known.
fn frame_of(duration: Duration, bandwidth: u8, lines: usize) -> Result<Row, Refusal>
    ensures { verdict_by says result ≡ length_check duration bandwidth lines (accepted (row_of duration bandwidth)) }
{
    let row = row_of(duration, bandwidth);
    if lines < last_stop(row) || lines > longest(duration) {
        return Err(Refusal::SpectrumLength);
    }
    Ok(row)
}

// The checks of a frame that encode and decode share: refusals 1 to 3, in number order, the first
// standing. Each duration is a literal in its call, so that its numbers are constants there.
pub fn check_frame(duration: u8, bandwidth: u8, lines: usize) -> Result<Row, Refusal>
    ensures { verdict_by says result ≡ frame_of duration bandwidth lines }
{
    check_codes(duration, bandwidth)?;
    if duration == 0 {
        return frame_of(Duration::Ten, bandwidth, lines);
    }
    frame_of(Duration::SevenPointFive, bandwidth, lines)
}
