// The text of a frame's line, as the bits program writes it. It demands nothing: what there is no room for
// is left out, as text_put does. text_refusal says the number of a refused block in the same words.
#![tactic(auto, using(text_put::proofs::Pieces::pieces))]

ghost use Rattle.std.specs.Prelude.{◌≡◌};
ghost use Rattle.check_verdicts.specs.Verdicts.{numbered, placed, refused, verdict_by};
ghost use Rattle.check_refusals.specs.Refusals.{says};
ghost use Rattle.cost_bytes.specs.SideBytes.{line_of};
ghost use Rattle.text_put.specs.Text.{after};
ghost use Rattle.text_answers.specs.Wording.{answer_text, saying_text, line_text};

use check_refusals::Refusal;
use cost_bytes::bytes_cost;
use text_put::Text;

// A refusal, by its number alone: text_refusal says those of blocks by it too.
pub fn put_number<const ROOM: usize>(number: u8, out: &mut Text<ROOM>)
    ensures { out.new ≡ after ROOM out.old (answer_text (refused (numbered number))) }
{
    out.put_numbered(b"refused ", u64::from(number));
}

fn put_place<const ROOM: usize>(number: u8, place: usize, out: &mut Text<ROOM>)
    ensures { out.new ≡ after ROOM out.old (answer_text (refused (placed number place 0))) }
{
    put_number(number, out);
    out.put_numbered(b" at ", place as u64);
}

// Refusals 6 and 7 end with their place, the others after their number.
fn put_refusal<const ROOM: usize>(why: Refusal, out: &mut Text<ROOM>)
    ensures { out.new ≡ after ROOM out.old (answer_text (refused (says why))) }
{
    let number = why.number();
    match why {
        Refusal::Order { place, .. } | Refusal::Index { place, .. } => put_place(
            number, place, out,
        ),
        _ => put_number(number, out),
    }
}

fn put_cost<const ROOM: usize>(answer: Result<u16, Refusal>, out: &mut Text<ROOM>)
    ensures { out.new ≡ after ROOM out.old (answer_text (verdict_by says answer)) }
{
    match answer {
        Ok(bits) => {
            out.put_decimal(u64::from(bits));
            out.put(b" bits");
        }
        Err(why) => put_refusal(why, out),
    }
}

fn put_saying<const ROOM: usize>(bytes: &[u8], out: &mut Text<ROOM>)
    ensures { out.new ≡ after ROOM out.old (saying_text (line_of bytes.now)) }
{
    match bytes_cost(bytes) {
        None => out.put(b"short"),
        Some(answer) => put_cost(answer, out),
    }
}

// A frame's line: what the record in the bytes costs, or why it is refused, or that they are too few.
pub fn put_line<const ROOM: usize>(frame: u64, bytes: &[u8], out: &mut Text<ROOM>)
    ensures { out.new ≡ after ROOM out.old (line_text frame (line_of bytes.now)) }
{
    out.put_numbered(b"frame ", frame);
    out.put(b": ");
    put_saying(bytes, out);
    out.put(b"\n");
}
