// The doors of save and restart: the decoder from a lent spectrum into a lent output, split at a line.
// `save` runs the filters as far as they lie below line n, keeps their states, and runs the rest.
// `restart` runs that rest alone, from any states. Each door makes its checks itself, as `decode` does:
// that is quicker than a call that hands a row back (docs/DECISIONS.md). `Refusal` is named because the kit
// asks for the crate of every type that a function meets, and the checks answer with one.
#![tactic(auto)]

ghost use Rattle.call_restart.specs.Restart.{lent_at_line, Saves, Restarts};

use check_frame::check_frame;
use check_line::{LineRefusal, check_line};
use check_refusals::Refusal;
use check_side::check_side;
use side_split::{row_restarted, row_saved};

// Decodes a whole frame from a spectrum into an output of the same length, and leaves the eight states
// as they are before line n. A refused call writes neither.
pub fn save(
    duration: u8,
    bandwidth: u8,
    filters: u8,
    orders: &[u8],
    indices: &[u8],
    spectrum: &[f32],
    output: &mut [f32],
    n: usize,
    states: &mut [f32; 8],
) -> Result<(), LineRefusal>
    ensures { Saves duration bandwidth filters orders.now indices.now spectrum.now n (lent_at_line output.old states.old) (lent_at_line output.new states.new) result }
{
    let row = check_frame(duration, bandwidth, spectrum.len())?;
    let side = check_side(filters, orders, indices)?;
    check_line(row, spectrum.len(), n, output.len())?;
    *states = row_saved(row, &side, spectrum, output, n);
    Ok(())
}

// Writes the output of a frame from line n on, and nothing below it: the filters go on from the eight
// states, whatever these are, and lines of no band are the spectrum's. A refused call writes nothing.
pub fn restart(
    duration: u8,
    bandwidth: u8,
    filters: u8,
    orders: &[u8],
    indices: &[u8],
    spectrum: &[f32],
    output: &mut [f32],
    n: usize,
    states: &[f32; 8],
) -> Result<(), LineRefusal>
    ensures { Restarts duration bandwidth filters orders.now indices.now spectrum.now n states.now output.old output.new result }
{
    let row = check_frame(duration, bandwidth, spectrum.len())?;
    let side = check_side(filters, orders, indices)?;
    check_line(row, spectrum.len(), n, output.len())?;
    row_restarted(row, &side, spectrum, output, n, *states);
    Ok(())
}
