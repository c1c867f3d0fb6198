// Operations on the rows of a flat matrix, n bytes a row, in lent bytes.
#![tactic(auto)]

ghost use Rattle.std.specs.Prelude.{◌≡◌, ℕ, false, ◌⊎◌, ◌+◌, ◌*◌, ◌≤◌, ◌<◌, T, length};
ghost use Rattle.field.specs.Field.{is_field_size, is_polynomial, add as sum, multiply as product};
ghost use Rattle.linear.specs.Span.{Row};
ghost use Rattle.linear.specs.Eliminate.{lead_of, eliminate as eliminated, monic as monic_of};
ghost use Rattle.rows.specs.Laws.Steps.{part, put, Apart, plus_multiple, multiple, swapped, raised};

// The step of the loops over a row, in one kind of field. A loop is written once, and the compiler makes one of it for each kind.
trait Arithmetic {
    // The fields that it serves.
    ghost serves: { ℕ → Type 0 };

    // a + c·b.
    fn add_product(q: u64, a: u8, c: u8, b: u8) -> u8
        requires { T (is_field_size q) × serves q × (a < q) × (c < q) × (b < q) }
        ensures { result ≡ sum q a (product q c b) };
}

// Numbers modulo q.
struct Numbers;

impl Arithmetic for Numbers {
    ghost serves = { λ q. is_polynomial q ≡ false };

    fn add_product(q: u64, a: u8, c: u8, b: u8) -> u8 {
        field::add_product(q, a, c, b)
    }
}

// Polynomials, in four and eight.
struct Polynomials;

impl Arithmetic for Polynomials {
    ghost serves = { λ q. T (is_polynomial q) };

    fn add_product(q: u64, a: u8, c: u8, b: u8) -> u8 {
        field::add_polynomial(q, a, c, b)
    }
}

// Adds c times the row at `from` to the row at `to`, which may be the same.
fn add<A: Arithmetic>(q: u64, n: usize, c: u8, m: &mut [u8], from: usize, to: usize)
    requires t { T (is_field_size q) × A.serves q × (c < q) × Row q n (part n from m.old) × Row q n (part n to m.old)
        × (Apart n from to ⊎ (from ≡ to)) }
    requires n_in_bounds { (from + n ≤ length m.old) × (to + n ≤ length m.old) }
    ensures { m.new
        ≡ put n to (plus_multiple q n c (part n from m.old) (part n to m.old)) m.old }
{
    for j in 0..n {
        m[to + j] = A::add_product(q, m[to + j], c, m[from + j]);
    }
}

// The same in any field.
fn add_scaled(q: u64, n: usize, c: u8, m: &mut [u8], from: usize, to: usize)
    requires t { T (is_field_size q) × (c < q) × Row q n (part n from m.old) × Row q n (part n to m.old) × Apart n from to }
    requires n_in_bounds { (from + n ≤ length m.old) × (to + n ≤ length m.old) }
    ensures { m.new
        ≡ put n to (plus_multiple q n c (part n from m.old) (part n to m.old)) m.old }
{
    if field::is_polynomial(q) {
        add::<Polynomials>(q, n, c, m, from, to);
    } else {
        add::<Numbers>(q, n, c, m, from, to);
    }
}

// Takes from the row at `to` the multiple of the row at `from` that makes it zero at p, that row's lead. Where it is zero there already,
// nothing is left to do.
pub fn eliminate(q: u64, n: usize, p: usize, m: &mut [u8], from: usize, to: usize)
    requires t { T (is_field_size q) × (p < n) × Row q n (part n from m.old) × Row q n (part n to m.old) × Apart n from to }
    requires n_in_bounds { (from + n ≤ length m.old) × (to + n ≤ length m.old) × (p ≡ lead_of n (part n from m.old)) }
    ensures { m.new
        ≡ put n to (eliminated q n (part n from m.old) (part n to m.old)) m.old }
{
    let entry = m[to + p];
    if entry != 0 {
        let c = field::negate(q, entry);
        add_scaled(q, n, c, m, from, to);
    }
}

// Writes `row` plus c times m's first row to the place `to` of m.
fn enter_sum<A: Arithmetic>(q: u64, n: usize, c: u8, row: &[u8], m: &mut [u8], to: usize)
    requires t { T (is_field_size q) × A.serves q × (c < q) × Row q n row.now × Row q n (part n 0 m.old) }
    requires n_in_bounds { (n ≤ to) × (to + n ≤ length m.old) }
    ensures { m.new ≡ put n to (plus_multiple q n c (part n 0 m.old) row.now) m.old }
{
    for (j, entry) in row.iter().enumerate() {
        m[to + j] = A::add_product(q, *entry, c, m[j]);
    }
}

// Writes `row`, less the multiple of m's first row that makes it zero at p, that row's lead, to the place `to` of m.
pub fn enter(q: u64, n: usize, p: usize, row: &[u8], m: &mut [u8], to: usize)
    requires t { T (is_field_size q) × (p < n) × Row q n row.now × Row q n (part n 0 m.old) × (n ≤ to) × (to + n ≤ length m.old) }
    requires p_value { p ≡ lead_of n (part n 0 m.old) }
    ensures { m.new ≡ put n to (eliminated q n (part n 0 m.old) row.now) m.old }
{
    let c = field::negate(q, row[p]);
    if field::is_polynomial(q) {
        enter_sum::<Polynomials>(q, n, c, row, m, to);
    } else {
        enter_sum::<Numbers>(q, n, c, row, m, to);
    }
}

// Multiplies v by c. Of polynomials c times v is v and c + 1 times v, as 1 + 1 is 0: they need no loop of their own.
fn scale(q: u64, n: usize, c: u8, v: &mut [u8])
    requires { T (is_field_size q) × (c < q) × Row q n v.old }
    ensures { v.new ≡ multiple q n c v.old }
{
    if field::is_polynomial(q) {
        add::<Polynomials>(q, n, c ^ 1, v, 0, 0);
        return;
    }
    for entry in v.iter_mut() {
        *entry = field::add_product(q, 0, c, *entry);
    }
}

// Scales v so that its entry at p, its lead, is 1. Where it is 1, nothing is left to do.
pub fn monic(q: u64, n: usize, p: usize, v: &mut [u8])
    requires { T (is_field_size q) × Row q n v.old × (p ≡ lead_of n v.old) × (p < n) }
    ensures { v.new ≡ monic_of q n v.old }
{
    let pivot = v[p];
    if pivot != 1 {
        let c = field::invert(q, pivot);
        scale(q, n, c, v);
    }
}

// Exchanges the row at `at` and the next one. Entry by entry: std's `swap_with_slice` is called out of line, and rows that come in falling
// order of their leads took half as long again.
fn swap(n: usize, m: &mut [u8], at: usize)
    requires { at + n + n ≤ length m.old }
    ensures { m.new ≡ swapped n at m.old }
{
    for j in 0..n {
        let above = m[at + j];
        m[at + j] = m[at + n + j];
        m[at + n + j] = above;
    }
}

// Moves row d up to row `at`, and the rows between one down.
pub fn raise(n: usize, d: usize, at: usize, m: &mut [u8])
    requires { (at ≤ d) × (d * n + n ≤ length m.old) }
    ensures { m.new ≡ raised n (d * n) (at * n) m.old }
{
    for i in (at..d).rev() {
        swap(n, m, i * n);
    }
}
