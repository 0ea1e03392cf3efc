// A record of a narration: 24 bytes, in memory as in a file. It is sound if the limits of docs/RULES.md hold of
// its numbers and its bits are what its side data cost, by the checks that the calls have.
#![tactic(auto)]

ghost use Rattle.std.specs.Prelude.{◌≡◌};
ghost use Rattle.block_record.specs.RecordBytes.{sound_record};

use block_numbers::word_of;
use check_side::check_codes;
use cost_call::cost;

// Whether some bytes are a sound record. Fewer than 24, or more, are not one.
pub fn is_sound(bytes: &[u8]) -> bool
    ensures { result ≡ sound_record bytes.now }
{
    if bytes.len() != 24 {
        return false;
    }
    let bits = word_of(bytes[22], bytes[23]);
    check_codes(bytes[0], bytes[1]).is_ok()
        && cost(bytes[3], bytes[2], &bytes[4..6], &bytes[6..22]).is_ok_and(|cost| cost == bits)
}
