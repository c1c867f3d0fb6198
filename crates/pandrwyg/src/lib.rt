// The raw functions for C, over numbers and slices, which answer a refusal's number or 0: the pack's firmware calls Draw, the fleet server
// draws batches, the cabinet's daemon calls Receive. `pandrwyg_c` exports them; include/pandrwyg.h puts an inline function in front of each,
// which keeps null pointers out.
#![tactic(auto)]

ghost use Rattle.std.specs.Prelude.{◌≡◌, ◌<◌, length};
ghost use Rattle.refusal.specs.Refusal.{refusal_number};
ghost use Rattle.draw.specs.Draw.{draw_refusal, draw_buffer};
ghost use Rattle.draw_batch.specs.Batch.{batch_refusal, batch_matrices, batch_answers};
ghost use Rattle.receive.specs.Answer.{received_number, received_dimension};
ghost use Rattle.pandrwyg.specs.Exported.{answer_size, answer_bytes, left_bytes, exported_refusal};
ghost use Rattle.pandrwyg.specs.Exported.{exported_of, exported_number, exported_bytes};

use numbering::Index;
use receive::Unreceived;
use reduce::Space;
use refusal::Refusal;

// Draw for C: writes the reduced matrix with the given index of the numbering t. Refuses 1, 2, 3, 10, 4 (the buffer is not exactly k×n
// bytes), 5, and then leaves the buffer.
pub fn pandrwyg_draw_raw(q: u64, n: u64, k: u64, t: u64, index: u64, matrix: &mut [u8]) -> u32
    ensures value { result ≡ draw_refusal q n k t index (length matrix.old) }
    ensures matrix_after { matrix.new ≡ draw_buffer q n k t index matrix.old }
{
    refusal::number_of(draw::draw(q, n, k, t, index, matrix))
}

// Draws a list of indexes for C: the reduced matrix of each index of the numbering t goes to its k×n bytes of `matrices`, and 0 to its byte
// of `answers`. An index of N or more leaves its k×n bytes, and its answer is 5. Refuses the whole 1, 2, 3, 10, 4 (either buffer is not
// exactly as long as the list needs), and then leaves both buffers.
pub fn pandrwyg_draw_batch_raw(
    q: u64,
    n: u64,
    k: u64,
    t: u64,
    indexes: &[u64],
    matrices: &mut [u8],
    answers: &mut [u8],
) -> u32
    ensures value { result
        ≡ batch_refusal q n k t (length indexes.now) (length matrices.old) (length answers.old) }
    ensures matrices_after { matrices.new
        ≡ batch_matrices q n k t indexes.now matrices.old (length answers.old) }
    ensures answers_after { answers.new
        ≡ batch_answers q n k t indexes.now (length matrices.old) answers.old }
{
    refusal::number_of(draw_batch::draw_batch(q, n, k, t, indexes, matrices, answers))
}

// The bytes of a lent answer: the index in eight, the dimension in one, the identifying vector in two.
const ANSWER_SIZE: usize = 11;

// Writes a lent answer: the index, the dimension and the identifying vector, each least byte first.
fn write_answer(answer: &mut [u8], index: u64, space: Space)
    requires { (length answer.old ≡ answer_size) × (space.dimension < 256) }
    ensures { answer.new ≡ answer_bytes index space.dimension space.vector }
{
    basics::copy(&index.to_le_bytes(), answer, 0);
    answer[8] = space.dimension as u8;
    basics::copy(&space.vector.to_le_bytes(), answer, 9);
}

// Leaves what was received in the lent answer, and gives its refusal number.
fn leave(received: Result<(Index, Space), Unreceived>, answer: &mut [u8]) -> u32
    requires { (length answer.old ≡ answer_size) × (received_dimension received < 256) }
    ensures value { result ≡ received_number received }
    ensures answer_after { answer.new ≡ left_bytes answer.old received }
{
    match received {
        Ok((index, space)) => {
            write_answer(answer, index.into(), space);
            0
        }
        Err(Unreceived::TooFew(space)) => {
            write_answer(answer, 0, space);
            Refusal::TooFew.into()
        }
        Err(Unreceived::TooMany(space)) => {
            write_answer(answer, 0, space);
            Refusal::TooMany.into()
        }
        Err(Unreceived::Refused(refusal)) => refusal.into(),
    }
}

// Tests what Receive is given, with a lent answer of `size` bytes, but for the span: the first of its refusals that applies.
fn check(
    q: u64,
    n: u64,
    k: u64,
    t: u64,
    row_count: u64,
    rows: &[u8],
    size: usize,
) -> Result<(), Refusal>
    ensures { refusal_number result ≡ exported_refusal q n k t row_count rows.now size }
{
    receive::check_size(q, n, k, t, row_count, rows.len())?;
    if size != ANSWER_SIZE {
        return Err(Refusal::Length);
    }
    if !matrix::entries_below(rows, q) {
        return Err(Refusal::Entry);
    }
    Ok(())
}

// Receive for C: the answer is a lent buffer of eleven bytes, the index, the dimension and the identifying vector, each least byte first.
// Refuses as Receive does, and 4 if the answer isn't eleven bytes, after the rows' length. 8 and 9 leave index bytes of 0, the dimension
// and the vector; other refusals leave the answer.
pub fn pandrwyg_receive_raw(
    q: u64,
    n: u64,
    k: u64,
    t: u64,
    row_count: u64,
    rows: &[u8],
    answer: &mut [u8],
) -> u32
    ensures value { result ≡ received_number (exported_of q n k t row_count rows.now (length answer.old)) }
    ensures answer_after { answer.new ≡ exported_bytes q n k t row_count rows.now answer.old }
    ensures value_2 { result ≡ exported_number q n k t row_count rows.now (length answer.old) }
{
    match check(q, n, k, t, row_count, rows, answer.len()) {
        Ok(()) => leave(receive::reduced_answer(q, n, k, t, row_count, rows), answer),
        Err(refusal) => refusal.into(),
    }
}
