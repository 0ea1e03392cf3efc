// How a call on a block writes to its caller's buffer, and what the one that reads and the one that writes
// promise of it.
#![tactic(auto)]

ghost use Rattle.std.specs.Prelude.{◌≡◌, ◌≤◌, length};
ghost use Rattle.block_buffer.specs.Buffers.{laid_over};

// Lays some bytes over the first of a buffer. It requires that they are not more than the buffer holds,
// which its caller has checked: at most twenty records in 480 bytes. It is a loop: between two lists that are both lent, of
// a length that the compiler does not know, `copy_from_slice` would call memmove, and the archive calls memcpy and
// memset alone (docs/DECISIONS.md).
pub fn lay(bytes: &[u8], buffer: &mut [u8])
    requires { length bytes.now ≤ length buffer.old }
    ensures { buffer.new ≡ laid_over bytes.now buffer.old }
{
    for i in 0..bytes.len() {
        buffer[i] = bytes[i];
    }
}
