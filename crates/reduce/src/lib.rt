// Reduce: the reduced matrix of the span of some rows.
#![tactic(auto)]

ghost use Rattle.std.specs.Prelude.{◌≡◌, ◌*◌, ◌≤◌, T, length, replicate};
ghost use Rattle.refusal.specs.Refusal.{refusal_number, unless_refused};
ghost use Rattle.field.specs.Field.{is_field_size};
ghost use Rattle.matrix.specs.Matrix.{entries_below, identifying};
ghost use Rattle.linear.specs.Span.{rows_of};
ghost use Rattle.linear.specs.Eliminate.{reduced_of, dimension as dimension_of};
ghost use Rattle.reduction.specs.Padded.{padded};
ghost use Rattle.reduce.specs.Reduce.{row_settings_refusal, rows_size_refusal, row_list_refusal};
ghost use Rattle.reduce.specs.Reduce.{space_of, reduce_refusal, reduce_of, reduce_buffer};
ghost use Rattle.reduce.specs.Reduce.{reduction_number, reduction_dimension, reduction_vector};

use refusal::Refusal;

// The most rows that a call takes in.
pub const MOST_ROWS: u64 = 64;

// Tests q and n: the first of the refusals 1, and 2 for n alone, that applies.
pub fn check_row_settings(q: u64, n: u64) -> Result<(), Refusal>
    ensures { refusal_number result ≡ row_settings_refusal q n }
{
    if !field::is_size(q) {
        return Err(Refusal::FieldSize);
    }
    if !settings::row_length_ok(n) {
        return Err(Refusal::Range);
    }
    Ok(())
}

// Tests `row_count` rows of n entries in `size` bytes: the first of the refusals 13 and 4 that applies.
pub fn check_rows_size(n: u64, row_count: u64, size: usize) -> Result<(), Refusal>
    requires { n ≤ 16 }
    ensures { refusal_number result ≡ rows_size_refusal n row_count size }
{
    if MOST_ROWS < row_count {
        return Err(Refusal::RowCount);
    }
    if size as u64 != row_count * n {
        return Err(Refusal::Length);
    }
    Ok(())
}

// Tests a list of `row_count` rows of n entries: the first of the refusals 13, 4 and 6 that applies.
pub fn check_rows(q: u64, n: u64, row_count: u64, rows: &[u8]) -> Result<(), Refusal>
    requires { n ≤ 16 }
    ensures { refusal_number result ≡ row_list_refusal q n row_count rows.now }
{
    check_rows_size(n, row_count, rows.len())?;
    if !matrix::entries_below(rows, q) {
        return Err(Refusal::Entry);
    }
    Ok(())
}

// What is told of the span of some rows: its dimension, and the identifying vector of its reduced matrix.
#[derive(Clone, Copy)]
pub struct Space {
    pub dimension: u64,
    pub vector: u16,
}

// Tests what Reduce is given: the first of its refusals that applies.
fn check(q: u64, n: u64, row_count: u64, rows: &[u8], size: usize) -> Result<(), Refusal>
    ensures { refusal_number result ≡ reduce_refusal q n row_count rows.now size }
{
    check_row_settings(q, n)?;
    check_rows_size(n, row_count, rows.len())?;
    if size as u64 != n * n {
        return Err(Refusal::Length);
    }
    if !matrix::entries_below(rows, q) {
        return Err(Refusal::Entry);
    }
    Ok(())
}

// Writes the reduced matrix of the rows' span to `output`, which holds n×n zeros, and tells of the span.
pub fn reduce_rows(q: u64, n: u64, row_count: u64, rows: &[u8], output: &mut [u8]) -> Space
    requires { T (is_field_size q) × (n ≤ 16) × (length rows.now ≡ row_count * n) × T (entries_below q rows.now)
        × (output.old ≡ replicate (n * n) 0) }
    ensures value { result ≡ space_of n (dimension_of q n (rows_of n row_count rows.now))
        (reduced_of q n (rows_of n row_count rows.now)) }
    ensures output_after { output.new ≡ padded (n * n) (reduced_of q n (rows_of n row_count rows.now)) }
{
    let width = n as usize;
    let mut pivots = [0u8; 16];
    let dimension = reduction::insert_rows(
        q,
        width,
        0,
        row_count as usize,
        rows,
        output,
        &mut pivots,
    );
    let size = dimension * width;
    let vector = matrix::vector_of(&output[..size], &pivots, width, dimension);
    Space {
        dimension: dimension as u64,
        vector,
    }
}

// Reduce: writes the reduced matrix of the rows' span to `output`, then zeros, and answers the dimension and the identifying vector.
// Refuses 1, 2 (for n alone), 13, 4 (the rows are not row_count×n bytes, or the output not n×n), 6.
pub fn reduce(
    q: u64,
    n: u64,
    row_count: u64,
    rows: &[u8],
    output: &mut [u8],
) -> Result<Space, Refusal>
    ensures value { result ≡ reduce_of q n row_count rows.now (length output.old) }
    ensures output_after { output.new ≡ reduce_buffer q n row_count rows.now output.old }
    ensures result_value { (reduction_number result ≡ reduce_refusal q n row_count rows.now (length output.old))
        × (reduction_dimension result ≡ unless_refused (reduce_refusal q n row_count rows.now (length output.old))
        (dimension_of q n (rows_of n row_count rows.now)) 0)
        × (reduction_vector result ≡ unless_refused (reduce_refusal q n row_count rows.now (length output.old))
        (identifying n (dimension_of q n (rows_of n row_count rows.now))
        (reduced_of q n (rows_of n row_count rows.now))) 0) }
{
    check(q, n, row_count, rows, output.len())?;
    matrix::clear(output);
    Ok(reduce_rows(q, n, row_count, rows, output))
}
