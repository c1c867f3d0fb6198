// Receive: rows to index.
#![tactic(auto)]

ghost use Rattle.std.specs.Prelude.{◌≡◌, ◌*◌, ◌≤◌, T, length};
ghost use Rattle.refusal.specs.Refusal.{refusal_number};
ghost use Rattle.settings.specs.Laws.Accepted.{Accepted};
ghost use Rattle.matrix.specs.Matrix.{entries_below, Reduced};
ghost use Rattle.linear.specs.Span.{rows_of};
ghost use Rattle.linear.specs.Eliminate.{reduced_of, dimension as dimension_of};
ghost use Rattle.numbering.specs.Laws.Chosen.{Chosen};
ghost use Rattle.reduce.specs.Reduce.{most_rows, space_of};
ghost use Rattle.receive.specs.Answer.{unreceived_number, space_answer, Told};
ghost use Rattle.receive.specs.Receive.{rows_refusal, receive_refusal, reduced_answer, receive_of};
ghost use Rattle.receive.specs.declared.Unreceived.TheVariants as unreceived;

use numbering::Index;
use reduce::Space;
use refusal::Refusal;

// Why Receive and Close answer no index: the rows span fewer or more than k dimensions, with what is told of their span; or another
// refusal.
#[derive(Clone, Copy)]
pub enum Unreceived {
    TooFew(Space),
    TooMany(Space),
    Refused(Refusal),
}

impl From<Refusal> for Unreceived {
    ghost from_gives = { λ r u. u ≡ unreceived.Refused r };

    fn from(refusal: Refusal) -> Unreceived {
        Unreceived::Refused(refusal)
    }
}

// The number of the refusal.
impl From<Unreceived> for u32 {
    ghost from_gives = { λ u n. n ≡ unreceived_number u };

    fn from(unreceived: Unreceived) -> u32 {
        match unreceived {
            Unreceived::TooFew(_) => Refusal::TooFew.into(),
            Unreceived::TooMany(_) => Refusal::TooMany.into(),
            Unreceived::Refused(refusal) => refusal.into(),
        }
    }
}

// The answer for a span, whose reduced matrix is given: its index where it has k dimensions, else too few or too many. Here and below t stays
// a number: both functions took every number, or every known one.
pub fn space_answer(
    q: u64,
    n: u64,
    k: u64,
    t: u64,
    space: Space,
    matrix: &[u8],
) -> Result<(Index, Space), Unreceived>
    requires { Accepted q n k × Reduced q n space.dimension matrix.now × (space ≡ space_of n space.dimension matrix.now) }
    ensures { result ≡ space_answer q n k t space.dimension matrix.now }
{
    if space.dimension < k {
        return Err(Unreceived::TooFew(space));
    }
    if k < space.dimension {
        return Err(Unreceived::TooMany(space));
    }
    let index = numbering::rank(matrix, q, n as usize, k as usize, t, space.vector);
    Ok((index, space))
}

// Tests what is given but for the entries: the first of the refusals 1, 2, 3, 10, 13, 4 (the rows are not row_count×n bytes) that applies.
pub fn check_size(
    q: u64,
    n: u64,
    k: u64,
    t: u64,
    row_count: u64,
    size: usize,
) -> Result<(), Refusal>
    ensures { refusal_number result ≡ rows_refusal q n k t row_count size }
{
    numbering::check(q, n, k, t)?;
    reduce::check_rows_size(n, row_count, size)
}

// Tests what Receive is given, but for the span: the first of its refusals that applies.
fn check(q: u64, n: u64, k: u64, t: u64, row_count: u64, rows: &[u8]) -> Result<(), Refusal>
    ensures { refusal_number result ≡ receive_refusal q n k t row_count rows.now }
{
    numbering::check(q, n, k, t)?;
    reduce::check_rows(q, n, row_count, rows)
}

// The answer for rows that are not refused: they are reduced, and the reduced matrix is numbered.
pub fn reduced_answer(
    q: u64,
    n: u64,
    k: u64,
    t: u64,
    row_count: u64,
    rows: &[u8],
) -> Result<(Index, Space), Unreceived>
    requires { Chosen q n k t × (row_count ≤ most_rows) × (length rows.now ≡ row_count * n) × T (entries_below q rows.now) }
    ensures { result ≡ reduced_answer q n k t row_count rows.now }
{
    let mut matrix = [0u8; 256];
    let room = (n * n) as usize;
    let space = reduce::reduce_rows(q, n, row_count, rows, &mut matrix[..room]);
    let size = (space.dimension * n) as usize;
    space_answer(q, n, k, t, space, &matrix[..size])
}

// Receive: the index of the space that the rows span, in the numbering t, with its dimension and identifying vector. Refuses 1, 2, 3, 10,
// 13, 4 (not exactly row_count×n bytes), 6; 8 and 9, with the dimension and the vector, if the span has fewer or more than k dimensions.
pub fn receive(
    q: u64,
    n: u64,
    k: u64,
    t: u64,
    row_count: u64,
    rows: &[u8],
) -> Result<(Index, Space), Unreceived>
    ensures value { result ≡ receive_of q n k t row_count rows.now }
    ensures told { Told q n k t (dimension_of q n (rows_of n row_count rows.now))
        (reduced_of q n (rows_of n row_count rows.now)) (receive_refusal q n k t row_count rows.now) result }
{
    check(q, n, k, t, row_count, rows)?;
    reduced_answer(q, n, k, t, row_count, rows)
}
