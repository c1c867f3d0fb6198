// Draw: index to matrix.
#![tactic(auto)]

ghost use Rattle.std.specs.Prelude.{◌≡◌, ◌*◌, length};
ghost use Rattle.refusal.specs.Refusal.{refusal_number};
ghost use Rattle.counts.specs.Gaussian.{gaussian};
ghost use Rattle.numbering.specs.Numbering.{choice_refusal};
ghost use Rattle.draw.specs.Draw.{draw_refusal, draw_buffer};

use refusal::Refusal;

// Draw past its tests of settings, numbering and length: writes the reduced matrix with the given index, or leaves the buffer where the index
// is `total` or more, which is N. Refuses 5.
pub fn draw_index(
    matrix: &mut [u8],
    q: u64,
    n: usize,
    k: usize,
    t: u64,
    total: u64,
    index: u64,
) -> Result<(), Refusal>
    requires { (choice_refusal q n k t ≡ 0) × (total ≡ gaussian q n k) × (length matrix.old ≡ k * n) }
    ensures value { refusal_number result ≡ draw_refusal q n k t index (k * n) }
    ensures matrix_after { matrix.new ≡ draw_buffer q n k t index matrix.old }
{
    if total <= index {
        return Err(Refusal::Index);
    }
    numbering::unrank(matrix, q, n, k, t, index);
    Ok(())
}

// Draw: writes the reduced matrix with the given index of the numbering t.
// Refuses 1, 2, 3, 10, 4 (the buffer is not exactly k×n bytes), 5.
pub fn draw(q: u64, n: u64, k: u64, t: u64, index: u64, matrix: &mut [u8]) -> Result<(), Refusal>
    ensures value { refusal_number result ≡ draw_refusal q n k t index (length matrix.old) }
    ensures matrix_after { matrix.new ≡ draw_buffer q n k t index matrix.old }
{
    numbering::check(q, n, k, t)?;
    if matrix.len() as u64 != k * n {
        return Err(Refusal::Length);
    }
    let total = counts::coefficient(q, n, k);
    draw_index(matrix, q, n as usize, k as usize, t, total, index)
}
