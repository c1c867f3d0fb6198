// Reduced matrices as bytes, row by row from the top. The functions ask that the matrix has its k×n bytes; the calls above test it.
#![tactic(auto)]

ghost use Rattle.std.specs.Prelude.{◌≡◌, List, ℕ, ◌+◌, ◌*◌, ◌-◌, ◌^◌, ◌/◌, ◌%◌, ◌≤◌, ◌<◌, T, eqb, ltb, length, get_or, replicate};
ghost use Rattle.std.specs.Int.Count.{count_trailing_zeros};
ghost use Rattle.field.specs.Field.{is_field_size};
ghost use Rattle.matrix.specs.Matrix.{entry, lead as lead_of, pivot, entries_below, Reduced, identifying as vector_of};
ghost use Rattle.matrix.specs.Shape.{digit_at};
ghost use Rattle.matrix.specs.Laws.Shape.{top_value};
ghost use Rattle.matrix.specs.Laws.WriteColumn.{unit_at, Blank, Written};

// The place, counted from `start`, of the first nonzero byte among the n bytes from there on; n where there is none. Without `position`: an
// iterator hands out an optional reference, which lies elsewhere in memory on the 32-bit machines that compile the same module.
pub fn lead(m: &[u8], start: usize, n: usize) -> usize
    requires { start + n ≤ length m.now }
    ensures { result ≡ lead_of (λ j. get_or m.now (start + j) 0) n }
{
    for j in 0..n {
        if m[start + j] != 0 {
            return j;
        }
    }
    n
}

// The greatest byte; 0 where there is none. The loop has no way out, so that the compiler compares many bytes in one step.
pub fn greatest(m: &[u8]) -> u8
    ensures { (q : ℕ) → 0 < q → ltb result q ≡ entries_below q m.now }
{
    let mut greatest: u8 = 0;
    for place in 0..m.len() {
        greatest = greatest.max(m[place]);
    }
    greatest
}

// Whether every byte is below q: whether the greatest is.
pub fn entries_below(m: &[u8], q: u64) -> bool
    ensures { result ≡ entries_below q m.now }
{
    if q == 0 {
        return m.len() == 0;
    }
    (greatest(m) as u64) < q
}

// The identifying vector v with one more pivot, in column p from the left: column j from the right has the value 2^(j-1).
pub fn add_pivot(v: u16, n: usize, p: usize) -> u16
    requires { (n ≤ 16) × (p < n) × (v + 2 ^ (n - 1 - p) < 2 ^ 16) }
    ensures { result ≡ v + 2 ^ (n - 1 - p) }
{
    v + (1u16 << (n - 1 - p))
}

// A number without its last digit in base q, and that digit.
#[derive(Drop)]
struct Parted {
    others: u64,
    last: u8,
}

// What x leaves when it is divided by q, `others` times. The low bytes alone tell it, which spares a product of 64 bits.
fn left_over(q: u32, x: u64, others: u64) -> u8
    requires { (0 < q) × (q ≤ 8) × (others ≡ x / q) }
    ensures { result ≡ x % q }
{
    (((x % 256) as u32 + 256 * q - (others % 256) as u32 * q) % 256) as u8
}

// Parts x by D, a power of 2: the compiler shifts and masks.
fn part_even<const D: u64>(x: u64) -> Parted
    requires { (0 < D) × (D ≤ 8) }
    ensures { (result.others ≡ x / D) × (result.last ≡ x % D) }
{
    Parted {
        others: x / D,
        last: (x % D) as u8,
    }
}

// Parts x by another D: by one product, and what is left over by the low bytes.
fn part_odd<const D: u64>(x: u64) -> Parted
    requires { (0 < D) × (D ≤ 8) }
    ensures { (result.others ≡ x / D) × (result.last ≡ x % D) }
{
    let others = x / D;
    Parted {
        others,
        last: left_over(D as u32, x, others),
    }
}

// Parts x by q. Each size has its own constants, so that nothing is divided or shifted by a number that is known only at run time, and the
// evenness is asked first, so that the compiler makes a loop for each size.
fn part_digit(q: u64, x: u64) -> Parted
    requires { T (is_field_size q) }
    ensures { (result.others ≡ x / q) × (result.last ≡ x % q) }
{
    if q % 2 == 0 {
        return match q {
            2 => part_even::<2>(x),
            4 => part_even::<4>(x),
            _ => part_even::<8>(x),
        };
    }
    match q {
        3 => part_odd::<3>(x),
        5 => part_odd::<5>(x),
        _ => part_odd::<7>(x),
    }
}

// Writes the base-q digits of x into the first `rows` entries of column c, the last digit lowest, and answers the digits that are left. The
// other entries are 0 already. `start` is where row i begins: a product for each entry is dear on a narrow processor.
pub fn write_digits(m: &mut [u8], q: u64, n: usize, k: usize, c: usize, rows: usize, x: u64) -> u64
    requires { T (is_field_size q) × (c < n) × (rows ≤ k) × (k * n ≤ length m.old) × Blank n k c rows m.old }
    ensures written { Written n k c (digit_at q rows x) m.old m.new }
    ensures value { result ≡ x / q ^ rows }
{
    let mut rest = x;
    let mut start = rows * n;
    for _ in (0..rows).rev() {
        let parted = part_digit(q, rest);
        start -= n;
        m[start + c] = parted.last;
        rest = parted.others;
    }
    rest
}

// Writes a pivot's 1 into entry `row` of column c, whose entries are 0.
pub fn write_pivot(m: &mut [u8], n: usize, k: usize, c: usize, row: usize)
    requires { (c < n) × (row < k) × (k * n ≤ length m.old) × Blank n k c 0 m.old }
    ensures { Written n k c (unit_at row) m.old m.new }
{
    m[row * n + c] = 1;
}

// Fills m with zeros.
pub fn clear(m: &mut [u8])
    ensures { m.new ≡ replicate (length m.old) 0 }
{
    for x in m.iter_mut() {
        *x = 0;
    }
}

// x, with the first `rows` entries of column c as base-q digits after it, top row first.
pub fn append_digits(x: u64, m: &[u8], q: u64, n: usize, c: usize, rows: usize) -> u64
    requires { (0 < q) × (c < n) × (rows * n ≤ length m.now) × (x * q ^ rows + top_value q (entry n m.now) rows c < 2 ^ 64) }
    ensures { result ≡ x * q ^ rows + top_value q (entry n m.now) rows c }
{
    let mut value = x;
    for i in 0..rows {
        value = value * q + m[i * n + c] as u64;
    }
    value
}

// The identifying vector of a reduced matrix whose pivots, from the top row down, are in the given columns.
pub fn vector_of(m: &[u8], pivots: &[u8], n: usize, k: usize) -> u16
    requires { (n ≤ 16) × ((q : ℕ) × Reduced q n k m.now) × (k ≤ length pivots.now)
        × ((i : ℕ) → i < k → get_or pivots.now i 0 ≡ pivot n m.now i) }
    ensures { result ≡ vector_of n k m.now }
{
    let mut vector: u16 = 0;
    for row in 0..k {
        vector = add_pivot(vector, n, pivots[row] as usize);
    }
    vector
}

// The column, from the right and from 0, of the next pivot of an identifying vector whose pivots are taken from the right: the lowest set
// bit.
pub fn next_pivot(v: u16) -> usize
    ensures { result ≡ count_trailing_zeros 16 v }
{
    v.trailing_zeros() as usize
}

// Writes the columns of a reduced matrix's pivots, from the top row down, by its identifying vector: the lowest set bit is the pivot of the
// last row, and is then cleared.
pub fn pivot_columns(v: u16, n: usize, k: usize, pivots: &mut [u8])
    requires { (n ≤ 16) × (k ≤ length pivots.old) × ((q : ℕ) × ((m : List ℕ) × (Reduced q n k m × (v ≡ vector_of n k m)))) }
    ensures { (q : ℕ) (m : List ℕ) → Reduced q n k m → v ≡ vector_of n k m
        → (i : ℕ) → i < k → get_or pivots.new i 0 ≡ pivot n m i }
{
    let mut rest = v;
    for i in (0..k).rev() {
        let j = next_pivot(rest);
        pivots[i] = (n - 1 - j) as u8;
        rest -= 1u16 << j;
    }
}

// Whether bit j of v is 1.
pub fn pivot_at(v: u16, j: usize) -> bool
    requires { j < 16 }
    ensures { result ≡ eqb (v / 2 ^ j % 2) 1 }
{
    (v >> j) % 2 == 1
}
