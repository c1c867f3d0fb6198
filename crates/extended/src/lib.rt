// The extended numbering: a reduced matrix to its index, and back.
#![tactic(auto)]

ghost use Rattle.std.specs.Prelude.{◌≡◌, ◌*◌, ◌^◌, ◌%◌, ◌<◌, ◌≤◌, length};
ghost use Rattle.std.specs.Int.Count.{ones};
ghost use Rattle.matrix.specs.Matrix.{identifying, Reduced};
ghost use Rattle.counts.specs.Gaussian.{gaussian};
ghost use Rattle.settings.specs.Laws.Accepted.{Accepted};
ghost use Rattle.extended.specs.Extended.{extended_index};
ghost use Rattle.extended.specs.Drawn.{drawn_extended};

// An index of the extended numbering; it never stands for a Ferrers index.
#[derive(Clone, Copy)]
pub struct ExtendedIndex(pub u64);

// The number of ones among the j lowest bits of v: among the columns 1 to j of an identifying vector. The mask is made in 32 bits, so
// that it can have all 16.
fn ones_below(v: u16, j: usize) -> usize
    requires { j ≤ 16 }
    ensures { result ≡ ones (v % 2 ^ j) }
{
    u16::count_ones(v & ((1u32 << j) - 1) as u16) as usize
}

// The extended index of a reduced matrix, by formula (5), column by column from the right, where j counts from 0; v is the identifying
// vector. `rows` is k less document 01's w, which changes at a pivot alone.
pub fn rank(m: &[u8], q: u64, n: usize, k: usize, v: u16) -> ExtendedIndex
    requires { Accepted q n k × Reduced q n k m.now × (v ≡ identifying n k m.now) }
    ensures { result.0 ≡ extended_index q n k m.now }
{
    let mut index: u64 = 0;
    let mut rows = k;
    for j in 0..n {
        let column = n - 1 - j;
        if matrix::pivot_at(v, j) {
            index += counts::free_count(q, column as u64, rows as u64);
            rows = k - ones_below(v, j + 1);
        } else {
            index += matrix::append_digits(0, m, q, n, column, rows)
                * counts::coefficient(q, column as u64, rows as u64);
        }
    }
    ExtendedIndex(index)
}

// Writes the reduced matrix with the given extended index, column by column from the right. Of the matrices of `rows` rows and as many
// columns as are left, `rest` is the index of the one to write. The first `free` of them have no pivot in the last column, `each` for
// each value of that column. Answers the matrix's identifying vector, whose bits come with the columns.
pub fn unrank(m: &mut [u8], q: u64, n: usize, k: usize, index: ExtendedIndex) -> u16
    requires { Accepted q n k × (index.0 < gaussian q n k) × (length m.old ≡ k * n) }
    ensures m_after { m.new ≡ drawn_extended q n k index.0 }
    ensures value { result ≡ identifying n k (drawn_extended q n k index.0) }
{
    matrix::clear(m);
    let mut v: u16 = 0;
    let mut rest = index.0;
    let mut rows = k;
    for c in (0..n).rev() {
        let each = counts::coefficient(q, c as u64, rows as u64);
        let free = counts::free_of(q, c as u64, rows as u64, each);
        if rest < free {
            let value = rest / each;
            rest %= each;
            matrix::write_digits(m, q, n, k, c, rows, value);
        } else {
            matrix::write_pivot(m, n, k, c, rows - 1);
            v = matrix::add_pivot(v, n, c);
            rest -= free;
            rows -= 1;
        }
    }
    v
}
