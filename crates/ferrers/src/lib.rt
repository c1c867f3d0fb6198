// The Ferrers numbering.
#![tactic(auto)]

ghost use Rattle.std.specs.Prelude.{◌≡◌, ℕ, ◌*◌, ◌-◌, ◌^◌, ◌≤◌, ◌<◌, length};
ghost use Rattle.counts.specs.Gaussian.{gaussian};
ghost use Rattle.settings.specs.Laws.Accepted.{Accepted};
ghost use Rattle.matrix.specs.Matrix.{identifying, Reduced};
ghost use Rattle.matrix.specs.Shape.{Shape, cell, flatten};
ghost use Rattle.partitions.specs.Partitions.{box_count};
ghost use Rattle.partitions.specs.Laws.PackedCounts.{box_begin};
ghost use Rattle.ferrers.specs.Ferrers.{size, diagram, diagram_place, tableau_value, larger_diagrams, ferrers_index};
ghost use Rattle.ferrers.specs.Drawn.{drawn_ferrers};
ghost use Rattle.ferrers.specs.Laws.FindSize.{Found};
ghost use Rattle.ferrers.specs.Laws.VectorAt.{diagram_vector};
ghost use Rattle.ferrers.specs.Laws.WriteMatrix.{Shaped};

// An index of the Ferrers numbering; it never stands for an extended index.
#[derive(Clone, Copy)]
pub struct FerrersIndex(pub u64);

// The number of spaces whose diagrams have m dots; the box has room for `limit` dots, and its counts begin at `begin`.
fn weight(q: u64, n: usize, k: usize, begin: u64, limit: usize, m: usize) -> u64
    requires { Accepted q n k × (begin ≡ box_begin n k) × (limit ≡ k * (n - k)) × (m ≤ limit) }
    ensures { result ≡ box_count n k m * q ^ m }
{
    partitions::box_entry(n, k, begin, limit, m) * counts::power(q, m)
}

// The number of spaces whose diagrams have more than m dots.
fn larger(q: u64, n: usize, k: usize, m: usize) -> u64
    requires { Accepted q n k × (m ≤ k * (n - k)) }
    ensures { result ≡ larger_diagrams q k (n - k) m }
{
    let begin = partitions::box_begin(n, k);
    let limit = k * (n - k);
    (m + 1..=limit)
        .map(|i| weight(q, n, k, begin, limit, i))
        .sum()
}

// The number of dots of a reduced matrix's diagram; v is the identifying vector, whose bit j is that of the column j from the right, from 0.
fn size_of(m: &[u8], n: usize, k: usize, v: u16) -> usize
    requires { (n ≤ 16) × ((q : ℕ) × Reduced q n k m.now) × (v ≡ identifying n k m.now) }
    ensures { result ≡ size n k m.now }
{
    let mut dots = 0;
    let mut rows = k;
    for j in 0..n {
        if matrix::pivot_at(v, j) {
            rows -= 1;
        } else {
            dots += rows;
        }
    }
    dots
}

// The place of a reduced matrix's diagram among those of its size, by formula (12).
fn place_of(m: &[u8], q: u64, n: usize, k: usize, v: u16, total: usize) -> u64
    requires { Accepted q n k × Reduced q n k m.now × (v ≡ identifying n k m.now) × (total ≡ size n k m.now) }
    ensures { result ≡ diagram_place k (n - k) (diagram n k m.now) (size n k m.now) }
{
    let mut place: u64 = 0;
    let mut left = total;
    let mut rows = k;
    for j in 0..n {
        if matrix::pivot_at(v, j) {
            place += partitions::free_boxes(n - 1 - j, rows, left);
            rows -= 1;
        } else {
            left -= rows;
        }
    }
    place
}

// The tableau of a reduced matrix read as a base-q number, column by column from the right. A pivot's column has no dots. Each free
// column is read by itself, so that its entries do not wait for those of the columns before.
fn tableau_of(m: &[u8], q: u64, n: usize, k: usize, v: u16) -> u64
    requires { Accepted q n k × Reduced q n k m.now × (v ≡ identifying n k m.now) }
    ensures { result ≡ tableau_value q n k m.now }
{
    let mut tableau: u64 = 0;
    let mut rows = k;
    for j in 0..n {
        if matrix::pivot_at(v, j) {
            rows -= 1;
        } else {
            let column = matrix::append_digits(0, m, q, n, n - 1 - j, rows);
            tableau = tableau * counts::power(q, rows) + column;
        }
    }
    tableau
}

// The Ferrers index of a reduced matrix, by formula (14); v is the identifying vector.
pub fn rank(m: &[u8], q: u64, n: usize, k: usize, v: u16) -> FerrersIndex
    requires { Accepted q n k × Reduced q n k m.now × (v ≡ identifying n k m.now) }
    ensures { result.0 ≡ ferrers_index q n k m.now }
{
    let total = size_of(m, n, k, v);
    let place = place_of(m, q, n, k, v, total);
    let tableau = tableau_of(m, q, n, k, v);
    let index = larger(q, n, k, total) + counts::power(q, total) * place + tableau;
    FerrersIndex(index)
}

// The number of dots of a diagram, and an index among the matrices whose diagrams have so many.
#[derive(Clone, Copy)]
struct SizedIndex {
    size: usize,
    rest: u64,
}

// The size of the diagram with the given Ferrers index, searched from the largest down, and the index among the matrices of that size.
fn find_size(q: u64, n: usize, k: usize, index: u64) -> SizedIndex
    requires { Accepted q n k × (index < gaussian q n k) }
    ensures { Found q n k index result.size result.rest }
{
    let begin = partitions::box_begin(n, k);
    let limit = k * (n - k);
    let mut rest = index;
    for m in (1..=limit).rev() {
        let count = weight(q, n, k, begin, limit, m);
        if rest < count {
            return SizedIndex { size: m, rest };
        }
        rest -= count;
    }
    SizedIndex { size: 0, rest }
}

// The identifying vector of the diagram of `size` dots at the given place, column by column from the right. Of the diagrams of `dots` dots
// that are left, `earlier` come before this one, and the first `free` of them begin with a free column.
fn vector_at(n: usize, k: usize, size: usize, place: u64) -> u16
    requires { (n ≤ 16) × (place < box_count n k size) }
    ensures { result ≡ diagram_vector n k size place }
{
    let mut v: u16 = 0;
    let mut dots = size;
    let mut earlier = place;
    let mut rows = k;
    for c in (0..n).rev() {
        let free = partitions::free_boxes(c, rows, dots);
        if earlier < free {
            dots -= rows;
        } else {
            v = matrix::add_pivot(v, n, c);
            earlier -= free;
            rows -= 1;
        }
    }
    v
}

// Writes the reduced matrix with the identifying vector v and the given tableau, column by column from the left: the tableau's last digits
// are those of the first columns.
fn draw(m: &mut [u8], q: u64, n: usize, k: usize, v: u16, tableau: u64)
    requires { Accepted q n k × ((s : Shape) × Shaped q n k v tableau s) × (length m.old ≡ k * n) }
    ensures { (s : Shape) → Shaped q n k v tableau s → m.new ≡ flatten k n (cell q s k n) }
{
    matrix::clear(m);
    let mut entries = tableau;
    let mut rows = 0;
    for c in 0..n {
        if matrix::pivot_at(v, n - 1 - c) {
            matrix::write_pivot(m, n, k, c, rows);
            rows += 1;
        } else {
            entries = matrix::write_digits(m, q, n, k, c, rows, entries);
        }
    }
}

// Writes the reduced matrix with the given Ferrers index, and answers its identifying vector.
pub fn unrank(m: &mut [u8], q: u64, n: usize, k: usize, index: FerrersIndex) -> u16
    requires { Accepted q n k × (index.0 < gaussian q n k) × (length m.old ≡ k * n) }
    ensures m_after { m.new ≡ drawn_ferrers q n k index.0 }
    ensures value { result ≡ identifying n k (drawn_ferrers q n k index.0) }
{
    let found = find_size(q, n, k, index.0);
    let base = counts::power(q, found.size);
    let v = vector_at(n, k, found.size, found.rest / base);
    draw(m, q, n, k, v, found.rest % base);
    v
}
