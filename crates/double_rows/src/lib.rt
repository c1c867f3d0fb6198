// Rows of double width: each row of a matrix beside itself or beside zeros, and the right halves of those that lead there.
#![tactic(auto)]

ghost use Rattle.std.specs.Prelude.{◌≡◌, ◌++◌, ◌+◌, ◌*◌, ◌≤◌, ltb, length, take, drop};
ghost use Rattle.std.proofs.Math.Seq.{paste};
ghost use Rattle.basics.specs.Choice.{pick};
ghost use Rattle.linear.specs.Span.{rows_of};
ghost use Rattle.linear.specs.Eliminate.{join};
ghost use Rattle.reduction.specs.Padded.{padded};
ghost use Rattle.reduction.specs.Laws.Steps.{leads};
ghost use Rattle.spaces.specs.Spaces.{wide, wide_rows, right_halves};

// Writes `row` after the first `at` bytes, beside itself, or else beside the zeros that `out` holds there.
fn stack_row(row: &[u8], doubled: bool, out: &mut [u8], at: usize)
    requires row_in_bounds { at + length row.now + length row.now ≤ length out.old }
    requires out_value { out.old ≡ padded (length out.old) (take at out.old) }
    ensures { out.new
        ≡ padded (length out.old) (take at out.old ++ wide doubled (length row.now) row.now) }
{
    basics::copy(row, out, at);
    if doubled {
        let next = at + row.len();
        basics::copy(row, out, next);
    }
}

// Writes the `count` rows of n bytes so, one after the other, after the first `start` bytes.
pub fn stack(n: usize, count: usize, rows: &[u8], doubled: bool, out: &mut [u8], start: usize)
    requires rows_len { (length rows.now ≡ count * n) × (start + count * (n + n) ≤ length out.old) }
    requires out_value { out.old ≡ padded (length out.old) (take start out.old) }
    ensures { out.new ≡ padded (length out.old)
        (take start out.old ++ join (wide_rows doubled n (rows_of n count rows.now))) }
{
    let mut to = start;
    for i in 0..count {
        let from = i * n;
        stack_row(&rows[from..from + n], doubled, out, to);
        to += n + n;
    }
}

// Where `row`, of n and n bytes, leads in its right half, writes that half after the first `count` rows of n bytes; answers how many there
// are now.
fn put_half(n: usize, row: &[u8], lead: usize, out: &mut [u8], count: usize) -> usize
    requires { (length row.now ≡ n + n) × (n ≤ lead → count * n + n ≤ length out.old) × (count ≤ n) × (n ≤ 16) }
    ensures value { result ≡ pick (ltb lead n) count (count + 1) }
    ensures out_after { out.new
        ≡ pick (ltb lead n) out.old (paste out.old (count * n) (drop n row.now) n) }
{
    if lead < n {
        return count;
    }
    let from = n;
    basics::copy(&row[from..from + n], out, count * n);
    count + 1
}

// Writes the right halves of those of m's d rows that lead in the right half, then zeros, and answers how many they are. `pivots` holds
// the rows' leads.
pub fn right_halves(n: usize, d: usize, m: &[u8], pivots: &[u8], out: &mut [u8]) -> usize
    requires n_in_bounds { (d * (n + n) ≤ length m.now) × (d ≤ length pivots.now) × (length out.old ≡ n * n) × (n ≤ 16) }
    requires pivots_value { take d pivots.now ≡ leads (n + n) (rows_of (n + n) d m.now) }
    requires m_len_bound { length (right_halves n (rows_of (n + n) d m.now)) ≤ n }
    ensures value { result ≡ length (right_halves n (rows_of (n + n) d m.now)) }
    ensures out_after { out.new ≡ padded (n * n) (join (right_halves n (rows_of (n + n) d m.now))) }
{
    matrix::clear(out);
    let mut count = 0;
    for (i, lead) in pivots[..d].iter().enumerate() {
        let from = i * (n + n);
        count = put_half(n, &m[from..from + n + n], *lead as usize, out, count);
    }
    count
}
