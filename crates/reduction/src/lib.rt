// Row reduction on lent bytes: matrices are flat, row by row, with n bytes a row. q, n, d, m and `pivots` stay parameters: docs/ name
// `insert_rows` and `in_span`, which take them so, and between the steps inside the rows are in no state that a type could promise.
#![tactic(auto)]

ghost use Rattle.std.specs.Prelude.{◌≡◌, ◌++◌, ℕ, ◌+◌, ◌*◌, ◌-◌, ◌≤◌, ◌<◌, T, length, get_or, take, drop, replicate};
ghost use Rattle.field.specs.Field.{is_field_size};
ghost use Rattle.linear.specs.Span.{All, Row, rows_of};
ghost use Rattle.linear.specs.Eliminate.{lead_of, eliminate as eliminated, residue as residue_of, in_span};
ghost use Rattle.linear.specs.Eliminate.{put_among, insert_row, insert_rows, join};
ghost use Rattle.linear.specs.Laws.InsertMany.{Kept};
ghost use Rattle.reduction.specs.Padded.{padded};
ghost use Rattle.rows.specs.Laws.Steps.{part, put};
ghost use Rattle.reduction.specs.Laws.Steps.{leads, above, cleared};

// Writes `row`, eliminated with each of the d reduced rows of m, to the place after them. `pivots` holds their leads.
fn residue(q: u64, n: usize, d: usize, row: &[u8], m: &mut [u8], pivots: &[u8])
    requires t { T (is_field_size q) × (d * n + n ≤ length m.old) × Kept q n (rows_of n d m.old) × Row q n row.now }
    requires d_in_bounds { (d ≤ length pivots.now) × (take d pivots.now ≡ leads n (rows_of n d m.old)) }
    ensures { m.new ≡ put n (d * n) (residue_of q n (rows_of n d m.old) row.now) m.old }
{
    if d == 0 {
        basics::copy(row, m, 0);
        return;
    }
    let to = d * n;
    rows::enter(q, n, pivots[0] as usize, row, m, to);
    for i in 1..d {
        rows::eliminate(q, n, pivots[i] as usize, m, i * n, to);
    }
}

// Clears p, the lead of row d, in those of the rows before it whose lead lies before p, and says how many they are.
fn clear_above(q: u64, n: usize, d: usize, p: usize, m: &mut [u8], pivots: &[u8]) -> usize
    requires t { T (is_field_size q) × (d * n + n ≤ length m.old) × All (Row q n) (rows_of n d m.old)
        × Row q n (part n (d * n) m.old) }
    requires d_in_bounds { (d ≤ length pivots.now) × (take d pivots.now ≡ leads n (rows_of n d m.old)) × (p < n)
        × (p ≡ lead_of n (part n (d * n) m.old)) }
    ensures value { result ≡ above n (rows_of n d m.old) (part n (d * n) m.old) }
    ensures m_after { m.new ≡ join (cleared q n (rows_of n d m.old) (part n (d * n) m.old))
        ++ drop (result * n) m.old }
{
    let from = d * n;
    for (i, lead) in pivots[..d].iter().enumerate() {
        if p <= *lead as usize {
            return i;
        }
        rows::eliminate(q, n, p, m, from, i * n);
    }
    d
}

// Puts row d among the d rows before it in the order of leads, and clears p, its lead, in the rows above it.
fn put_among(q: u64, n: usize, d: usize, p: usize, m: &mut [u8], pivots: &mut [u8])
    requires t { T (is_field_size q) × (d * n + n ≤ length m.old) × All (Row q n) (rows_of n d m.old)
        × Row q n (part n (d * n) m.old) }
    requires d_in_bounds { (d < length pivots.old) × (take d pivots.old ≡ leads n (rows_of n d m.old)) × (p < n) × (n ≤ 256)
        × (p ≡ lead_of n (part n (d * n) m.old)) }
    ensures m_after { m.new ≡ join (put_among q n (rows_of n d m.old) (part n (d * n) m.old))
        ++ drop (d * n + n) m.old }
    ensures pivots_after { take (d + 1) pivots.new
        ≡ leads n (put_among q n (rows_of n d m.old) (part n (d * n) m.old)) }
{
    let at = clear_above(q, n, d, p, m, pivots);
    rows::raise(n, d, at, m);
    pivots[d] = p as u8;
    rows::raise(1, d, at, pivots);
}

// Takes `row` into the d reduced rows of m, which has room for one more, by its residue; answers how many there are now. Zeros follow them.
fn insert_residue(q: u64, n: usize, d: usize, row: &[u8], m: &mut [u8], pivots: &mut [u8]) -> usize
    requires t { T (is_field_size q) × (d * n + n ≤ length m.old) × Kept q n (rows_of n d m.old) × Row q n row.now }
    requires d_in_bounds { (d < length pivots.old) × (take d pivots.old ≡ leads n (rows_of n d m.old)) × (n ≤ 256) }
    requires m_value { drop (d * n + n) m.old ≡ replicate (length m.old - (d * n + n)) 0 }
    ensures value { result ≡ length (insert_row q n (rows_of n d m.old) row.now) }
    ensures m_after { m.new
        ≡ padded (length m.old) (join (insert_row q n (rows_of n d m.old) row.now)) }
    ensures pivots_after { take result pivots.new ≡ leads n (insert_row q n (rows_of n d m.old) row.now) }
{
    residue(q, n, d, row, m, pivots);
    let at = d * n;
    let p = matrix::lead(m, at, n);
    if p == n {
        return d;
    }
    rows::monic(q, n, p, &mut m[at..at + n]);
    put_among(q, n, d, p, m, pivots);
    d + 1
}

// Takes `row` into the d reduced rows of m, which has room for n rows and holds zeros after them, and answers how many there are now; n of
// them span every row already. `pivots` holds their leads.
pub fn insert(q: u64, n: usize, d: usize, row: &[u8], m: &mut [u8], pivots: &mut [u8]) -> usize
    requires t { T (is_field_size q) × Kept q n (rows_of n d m.old) × (m.old ≡ padded (n * n) (join (rows_of n d m.old)))
        × Row q n row.now }
    requires n_in_bounds { (n ≤ length pivots.old) × (take d pivots.old ≡ leads n (rows_of n d m.old)) × (n ≤ 256) }
    ensures value { result ≡ length (insert_row q n (rows_of n d m.old) row.now) }
    ensures m_after { m.new ≡ padded (n * n) (join (insert_row q n (rows_of n d m.old) row.now)) }
    ensures pivots_after { take result pivots.new ≡ leads n (insert_row q n (rows_of n d m.old) row.now) }
{
    if d == n {
        return d;
    }
    insert_residue(q, n, d, row, m, pivots)
}

// `count` stays beside `input`, whose rows may have no bytes. Takes the `count` rows of `input` into the d reduced rows of m, which has room
// for n rows and holds zeros after them, and answers how many there are now; it ends at n. `pivots` holds their leads.
pub fn insert_rows(
    q: u64,
    n: usize,
    d: usize,
    count: usize,
    input: &[u8],
    m: &mut [u8],
    pivots: &mut [u8],
) -> usize
    requires t { T (is_field_size q) × Kept q n (rows_of n d m.old) × (m.old ≡ padded (n * n) (join (rows_of n d m.old))) }
    requires n_in_bounds { (n ≤ length pivots.old) × (take d pivots.old ≡ leads n (rows_of n d m.old)) × (n ≤ 256) }
    requires input_len { (length input.now ≡ count * n) × ((i : ℕ) → i < length input.now → get_or input.now i 0 < q) }
    ensures value { result ≡ length (insert_rows q n (rows_of n d m.old) (rows_of n count input.now)) }
    ensures m_after { m.new
        ≡ padded (n * n) (join (insert_rows q n (rows_of n d m.old) (rows_of n count input.now))) }
    ensures pivots_after { take result pivots.new
        ≡ leads n (insert_rows q n (rows_of n d m.old) (rows_of n count input.now)) }
{
    let mut held = d;
    for i in 0..count {
        if held == n {
            return held;
        }
        let at = i * n;
        held = insert(q, n, held, &input[at..at + n], m, pivots);
    }
    held
}

// Copies `row` to the front of `work`, and takes from the row behind it the multiple that makes that row zero at p, the lead of `row`.
fn take_off(q: u64, n: usize, p: usize, row: &[u8], work: &mut [u8])
    requires t { T (is_field_size q) × (p < n) × Row q n row.now × Row q n (part n n work.old) × (n + n ≤ length work.old) }
    requires p_value { p ≡ lead_of n row.now }
    ensures { work.new
        ≡ put n n (eliminated q n row.now (part n n work.old)) (put n 0 row.now work.old) }
{
    basics::copy(row, work, 0);
    rows::eliminate(q, n, p, work, 0, n);
}

// Eliminates the second row of `work` with each of the d reduced rows of m, whose leads `pivots` holds.
fn take_off_rows(q: u64, n: usize, d: usize, m: &[u8], pivots: &[u8], work: &mut [u8])
    requires t { T (is_field_size q) × (d * n ≤ length m.now) × Kept q n (rows_of n d m.now) × Row q n (part n n work.old)
        × (n + n ≤ length work.old) }
    requires d_in_bounds { (d ≤ length pivots.now) × (take d pivots.now ≡ leads n (rows_of n d m.now)) }
    ensures { part n n work.new ≡ residue_of q n (rows_of n d m.now) (part n n work.old) }
{
    for (i, lead) in pivots[..d].iter().enumerate() {
        let from = i * n;
        take_off(q, n, *lead as usize, &m[from..from + n], work);
    }
}

// Whether `row` is in the span of the d reduced rows of m, whose leads `pivots` holds: whether its residue is zero.
pub fn in_span(q: u64, n: usize, d: usize, row: &[u8], m: &[u8], pivots: &[u8]) -> bool
    requires t { T (is_field_size q) × (d * n ≤ length m.now) × Kept q n (rows_of n d m.now) × Row q n row.now × (n ≤ 32) }
    requires d_in_bounds { (d ≤ length pivots.now) × (take d pivots.now ≡ leads n (rows_of n d m.now)) }
    ensures { result ≡ in_span q n (rows_of n d m.now) row.now }
{
    let mut work = [0u8; 64];
    basics::copy(row, &mut work, n);
    take_off_rows(q, n, d, m, pivots, &mut work);
    matrix::lead(&work, n, n) == n
}
