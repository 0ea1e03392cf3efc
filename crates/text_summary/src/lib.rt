// The one line that sums up a rescue that dropped something. It demands nothing: what there is no room for is
// left out, as text_put does.
#![tactic(auto, using(text_put::proofs::Pieces::pieces))]

ghost use Rattle.std.specs.Prelude.{◌≡◌};
ghost use Rattle.text_put.specs.Text.{after};
ghost use Rattle.text_summary.specs.SummaryText.{kept_text, summary_text};

use text_put::Text;

// How many of the blocks are kept, and how many records these have. It is like `put_moved` of text_report in form alone.
fn put_counts<const ROOM: usize>(kept: u64, blocks: u64, records: u64, out: &mut Text<ROOM>)
    ensures { out.new ≡ after ROOM out.old (kept_text kept blocks records) }
{
    out.put_numbered(b"kept ", kept);
    out.put_numbered(b" of ", blocks);
    out.put_numbered(b" blocks, ", records);
    out.put(b" records\n");
}

// The line, or nothing where every block is kept and no bytes are left over.
pub fn put_summary<const ROOM: usize>(
    kept: u64,
    blocks: u64,
    stray: u64,
    records: u64,
    out: &mut Text<ROOM>,
)
    ensures { out.new ≡ after ROOM out.old (summary_text kept blocks stray records) }
{
    if kept != blocks || stray != 0 {
        put_counts(kept, blocks, records, out);
    } else {
        // without a put the proof did not close: nothing is known here of how much the text has, and so not that it fits
        out.put(b"");
    }
}
