// Draw over a list of indexes with the same settings.
#![tactic(auto)]

ghost use Rattle.std.specs.Prelude.{◌≡◌, ◌*◌, eqb, length};
ghost use Rattle.refusal.specs.Refusal.{refusal_number};
ghost use Rattle.numbering.specs.Numbering.{choice_refusal};
ghost use Rattle.draw_batch.specs.Batch.{batch_refusal, draw_parts, draw_answers, batch_matrices, batch_answers};

use refusal::Refusal;

// Whether `length` is `count` times `size`. The product may need more than 64 bits, so the length is divided.
fn is_product(length: usize, count: usize, size: usize) -> bool
    ensures { result ≡ eqb length (count * size) }
{
    if size == 0 {
        return length == 0;
    }
    length / size == count && length % size == 0
}

// Tests the choice and the lengths: the first refusal of the whole list that applies.
fn check(
    q: u64,
    n: u64,
    k: u64,
    t: u64,
    count: usize,
    matrices: usize,
    answers: usize,
) -> Result<(), Refusal>
    ensures { refusal_number result ≡ batch_refusal q n k t count matrices answers }
{
    numbering::check(q, n, k, t)?;
    if !is_product(matrices, count, (k * n) as usize) || answers != count {
        return Err(Refusal::Length);
    }
    Ok(())
}

// The answer byte of one Draw.
fn answer_of(drawn: Result<(), Refusal>) -> u8
    ensures { result ≡ refusal_number drawn }
{
    match drawn {
        Ok(()) => 0,
        Err(refusal) => refusal.into(),
    }
}

// Draws the matrix of each index of the list to its part.
fn draw_parts(
    q: u64,
    n: usize,
    k: usize,
    t: u64,
    indexes: &[u64],
    matrices: &mut [u8],
    answers: &mut [u8],
)
    requires { (choice_refusal q n k t ≡ 0) × (length matrices.old ≡ length indexes.now * (k * n))
        × (length answers.old ≡ length indexes.now) }
    ensures matrices_after { matrices.new ≡ draw_parts q n k t indexes.now matrices.old }
    ensures answers_after { answers.new ≡ draw_answers q n k t indexes.now }
{
    let total = counts::coefficient(q, n as u64, k as u64);
    let size = k * n;
    let mut at = 0;
    for place in 0..indexes.len() {
        let end = at + size;
        let drawn = draw::draw_index(&mut matrices[at..end], q, n, k, t, total, indexes[place]);
        answers[place] = answer_of(drawn);
        at = end;
    }
}

// Draws a list of indexes: the reduced matrix of each index of the numbering t goes to its k×n bytes of `matrices`, and 0 to its byte of
// `answers`. An index of N or more leaves its k×n bytes, and its answer is 5. A refusal of the whole leaves both buffers. Refuses 1, 2, 3,
// 10, 4 (either buffer is not exactly as long as the list needs).
pub fn draw_batch(
    q: u64,
    n: u64,
    k: u64,
    t: u64,
    indexes: &[u64],
    matrices: &mut [u8],
    answers: &mut [u8],
) -> Result<(), Refusal>
    ensures value { refusal_number result
        ≡ batch_refusal q n k t (length indexes.now) (length matrices.old) (length answers.old) }
    ensures matrices_after { matrices.new
        ≡ batch_matrices q n k t indexes.now matrices.old (length answers.old) }
    ensures answers_after { answers.new
        ≡ batch_answers q n k t indexes.now (length matrices.old) answers.old }
{
    check(q, n, k, t, indexes.len(), matrices.len(), answers.len())?;
    draw_parts(q, n as usize, k as usize, t, indexes, matrices, answers);
    Ok(())
}
