// The functions for C as the archive exports them: each is the function of its name in `pandrwyg`, under its clauses word for word. A crate is
// a library or an archive, not both; this one has nothing but the exports.
#![tactic(auto)]

ghost use Rattle.std.specs.Prelude.{◌≡◌, length};
ghost use Rattle.draw.specs.Draw.{draw_refusal, draw_buffer};
ghost use Rattle.draw_batch.specs.Batch.{batch_refusal, batch_matrices, batch_answers};
ghost use Rattle.receive.specs.Answer.{received_number};
ghost use Rattle.pandrwyg.specs.Exported.{exported_of, exported_number, exported_bytes};

// Draw for C: writes the reduced matrix with the given index of the numbering t. Refuses 1, 2, 3, 10, 4 (the buffer is not exactly k×n
// bytes), 5, and then leaves the buffer.
#[unsafe(no_mangle)]
pub extern "C" fn pandrwyg_draw_raw(
    q: u64,
    n: u64,
    k: u64,
    t: u64,
    index: u64,
    matrix: &mut [u8],
) -> u32
    ensures value { result ≡ draw_refusal q n k t index (length matrix.old) }
    ensures matrix_after { matrix.new ≡ draw_buffer q n k t index matrix.old }
{
    pandrwyg::pandrwyg_draw_raw(q, n, k, t, index, matrix)
}

// Draws a list of indexes for C: the reduced matrix of each index of the numbering t goes to its k×n bytes of `matrices`, and 0 to its byte
// of `answers`. An index of N or more leaves its k×n bytes, and its answer is 5. Refuses the whole 1, 2, 3, 10, 4 (either buffer is not
// exactly as long as the list needs), and then leaves both buffers.
#[unsafe(no_mangle)]
pub extern "C" fn pandrwyg_draw_batch_raw(
    q: u64,
    n: u64,
    k: u64,
    t: u64,
    indexes: &[u64],
    matrices: &mut [u8],
    answers: &mut [u8],
) -> u32
    ensures value { result
        ≡ batch_refusal q n k t (length indexes.now) (length matrices.old) (length answers.old) }
    ensures matrices_after { matrices.new
        ≡ batch_matrices q n k t indexes.now matrices.old (length answers.old) }
    ensures answers_after { answers.new
        ≡ batch_answers q n k t indexes.now (length matrices.old) answers.old }
{
    pandrwyg::pandrwyg_draw_batch_raw(q, n, k, t, indexes, matrices, answers)
}

// Receive for C: the answer is a lent buffer of eleven bytes, the index, the dimension and the identifying vector, each least byte first.
// Refuses as Receive does, and 4 if the answer isn't eleven bytes, after the rows' length. 8 and 9 leave index bytes of 0, the dimension
// and the vector; other refusals leave the answer.
#[unsafe(no_mangle)]
pub extern "C" fn pandrwyg_receive_raw(
    q: u64,
    n: u64,
    k: u64,
    t: u64,
    row_count: u64,
    rows: &[u8],
    answer: &mut [u8],
) -> u32
    ensures value { result ≡ received_number (exported_of q n k t row_count rows.now (length answer.old)) }
    ensures answer_after { answer.new ≡ exported_bytes q n k t row_count rows.now answer.old }
    ensures value_2 { result ≡ exported_number q n k t row_count rows.now (length answer.old) }
{
    pandrwyg::pandrwyg_receive_raw(q, n, k, t, row_count, rows, answer)
}
