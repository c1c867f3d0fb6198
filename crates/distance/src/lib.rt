// The subspace distance of two lists of rows.
#![tactic(auto)]

ghost use Rattle.std.specs.Prelude.{◌≡◌, ◌*◌, ◌≤◌, T, replicate};
ghost use Rattle.refusal.specs.Refusal.{refusal_number, unless_refused};
ghost use Rattle.field.specs.Field.{is_field_size};
ghost use Rattle.linear.specs.Span.{rows_of};
ghost use Rattle.linear.specs.Eliminate.{reduced_rows};
ghost use Rattle.reduction.specs.Laws.InsertRows.{Holds};
ghost use Rattle.spaces.specs.Distance.{distance as distance_of_rows};
ghost use Rattle.distance.specs.Distance.{distance_refusal, distance_of, distance_number, distance_value};
ghost use Rattle.distance.specs.Laws.DistanceAccepted.{ListAccepted, DistanceAccepted};

use refusal::Refusal;

// Tests what the call is given: the first of its refusals that applies.
fn check(
    q: u64,
    n: u64,
    first_count: u64,
    first: &[u8],
    second_count: u64,
    second: &[u8],
) -> Result<(), Refusal>
    ensures { refusal_number result ≡ distance_refusal q n first_count first.now second_count second.now }
{
    reduce::check_row_settings(q, n)?;
    reduce::check_rows(q, n, first_count, first)?;
    reduce::check_rows(q, n, second_count, second)
}

// Takes the rows of a list into n×n zeros: answers their dimension, and the columns of the pivots of their reduced matrix.
fn reduced(q: u64, n: u64, row_count: u64, rows: &[u8], matrix: &mut [u8]) -> (usize, [u8; 16])
    requires list { T (is_field_size q) × (n ≤ 16) × ListAccepted q n row_count rows.now }
    requires zeros { matrix.old ≡ replicate (n * n) 0 }
    ensures { Holds q n (reduced_rows q n (rows_of n row_count rows.now)) result.0 matrix.new result.1 }
{
    let mut pivots = [0u8; 16];
    let dimension = reduction::insert_rows(
        q,
        n as usize,
        0,
        row_count as usize,
        rows,
        matrix,
        &mut pivots,
    );
    (dimension, pivots)
}

// The distance, reduced in two buffers of n×n zeros. The second list's reduced rows are taken into the first's: there are at most n, and
// they span what the list does.
fn reduced_distance(
    q: u64,
    n: u64,
    first_count: u64,
    first: &[u8],
    second_count: u64,
    second: &[u8],
    matrix: &mut [u8],
    other: &mut [u8],
) -> u64
    requires distance_accepted { DistanceAccepted q n first_count first.now second_count second.now }
    requires matrix_value { (matrix.old ≡ replicate (n * n) 0) × (other.old ≡ replicate (n * n) 0) }
    ensures { result
        ≡ distance_of_rows q n (rows_of n first_count first.now) (rows_of n second_count second.now) }
{
    let width = n as usize;
    let (first_dimension, mut pivots) = reduced(q, n, first_count, first, matrix);
    let (second_dimension, _) = reduced(q, n, second_count, second, other);
    let joint = reduction::insert_rows(
        q,
        width,
        first_dimension,
        second_dimension,
        &other[..second_dimension * width],
        matrix,
        &mut pivots,
    );
    (2 * joint - first_dimension - second_dimension) as u64
}

// The distance of the spans of two lists of rows: twice the dimension of their joint span, less the dimension of each. Refuses 1, 2 (for n
// alone); 13, 4 (not exactly row count × n bytes) and 6 of the first list, then of the second.
pub fn distance(
    q: u64,
    n: u64,
    first_count: u64,
    first: &[u8],
    second_count: u64,
    second: &[u8],
) -> Result<u64, Refusal>
    ensures value { result ≡ distance_of q n first_count first.now second_count second.now }
    ensures result_value { (distance_number result ≡ distance_refusal q n first_count first.now second_count second.now)
        × (distance_value result ≡ unless_refused (distance_refusal q n first_count first.now second_count second.now)
        (distance_of_rows q n (rows_of n first_count first.now) (rows_of n second_count second.now)) 0) }
{
    check(q, n, first_count, first, second_count, second)?;
    let size = (n * n) as usize;
    let mut matrix = [0u8; 256];
    let mut other = [0u8; 256];
    let distance = reduced_distance(
        q,
        n,
        first_count,
        first,
        second_count,
        second,
        &mut matrix[..size],
        &mut other[..size],
    );
    Ok(distance)
}
