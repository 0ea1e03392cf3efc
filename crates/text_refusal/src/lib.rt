// The text of the line that programs write of a block that is refused. It demands nothing: what there is no
// room for is left out, as text_put does.
#![tactic(auto, using(text_put::proofs::Pieces::pieces))]

ghost use Rattle.std.specs.Prelude.{◌≡◌};
ghost use Rattle.text_put.specs.Text.{after};
ghost use Rattle.text_refusal.specs.RefusalText.{block_refusal_text};

use text_answers::put_number;
use text_put::Text;

// The line of a block that is refused, with its place in the file. The refusal is a number, since the line is promised
// of any number: an enum would ask more of callers.
pub fn put_block_refusal<const ROOM: usize>(refusal: u8, block: u64, out: &mut Text<ROOM>)
    ensures { out.new ≡ after ROOM out.old (block_refusal_text refusal block) }
{
    put_number(refusal, out);
    out.put_numbered(b" at block ", block);
    out.put(b"\n");
}
