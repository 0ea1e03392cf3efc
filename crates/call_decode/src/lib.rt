// The decode call. A frame goes through it in the order of this file: its checks in `decode`, then the
// counted filters in the caller's own spectrum.
#![tactic(auto)]

ghost use Rattle.std.specs.Prelude.{◌≡◌, length};
ghost use Rattle.row_bands.proofs.Bands.{SoundRow};
ghost use Rattle.side_decoded.specs.DecoderFilters.{row_decoded};
ghost use Rattle.call_decode.specs.Decoder.{Decodes};

use check_frame::check_frame;
use check_refusals::Refusal;
use check_side::{CheckedSide, check_side};
use row_bands::Row;
use side_decoded::filters_decoded;

// Decodes a spectrum in place. Its parameters stand one by one, as C gives them. Any numbers and lists may be
// given: a frame or side data that the rules refuse (docs/RULES.md, "Refusal numbers") is refused by number and
// leaves every line as it was.
pub fn decode(
    duration: u8,
    bandwidth: u8,
    filters: u8,
    orders: &[u8],
    indices: &[u8],
    lines: &mut [f32],
) -> Result<(), Refusal>
    ensures { Decodes duration bandwidth filters orders.now indices.now lines.old lines.new result }
{
    let row = check_frame(duration, bandwidth, lines.len())?;
    let side = check_side(filters, orders, indices)?;
    row_decoded(row, &side, lines);
    Ok(())
}

// A sound frame with sound side data: the row's bands decoded, and nothing done where every counted
// filter has order 0. That the row's bands lie in the lines is a clause, as in side_decoded.
fn row_decoded(row: Row, side: &CheckedSide, lines: &mut [f32])
    requires { SoundRow row (length lines.old) }
    ensures { lines.new ≡ row_decoded row side.now.filters side.now.orders side.now.indices lines.old }
{
    if side.orders[0] == 0 {
        if side.filters == 1 {
            return;
        }
        if side.orders[1] == 0 {
            return;
        }
    }
    filters_decoded(row, side, [0.0; 8], lines);
}
