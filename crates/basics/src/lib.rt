// What every layer cites: lemmas, and the copy of bytes.
#![tactic(auto)]

ghost use Rattle.std.specs.Prelude.{◌≡◌, ◌+◌, ◌≤◌, length};
ghost use Rattle.std.proofs.Math.Seq.{paste};

// Copies `source` to the places of `target` from `start` on. Byte by byte: std's `copy_from_slice` calls C's `memmove`, which a controller's
// firmware need not have.
pub fn copy(source: &[u8], target: &mut [u8], start: usize)
    requires { start + length source.now ≤ length target.old }
    ensures { target.new ≡ paste target.old start source.now (length source.now) }
{
    for (j, &x) in source.iter().enumerate() {
        target[start + j] = x;
    }
}
