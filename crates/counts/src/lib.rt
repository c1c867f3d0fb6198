// The number of spaces: the Gaussian coefficient and its table; powers of q.
#![tactic(auto)]

mod lookup;
mod table;

ghost use Rattle.std.specs.Prelude.{◌≡◌, suc, ◌*◌, ◌^◌, ◌≤◌, ◌<◌, T};
ghost use Rattle.field.specs.Field.{is_field_size};
ghost use Rattle.counts.specs.Gaussian.{gaussian, greatest_count, table_entry, counts};
ghost use Rattle.counts.specs.Laws.Nearer.{nearer as nearer_end};
ghost use Rattle.counts.specs.Laws.Halves.{half_place};

use table::COUNTS;

// Document 01's table, whole; its rule is proved by one computed test. The calls read its entries by `coefficient`, which copies no table.
pub fn all_counts() -> [u64; 1734]
    ensures { result ≡ counts }
{
    COUNTS
}

// The smaller of m and limit - m.
pub fn nearer(limit: u64, m: u64) -> u64
    requires { m ≤ limit }
    ensures { result ≡ nearer_end limit m }
{
    (limit - m).min(m)
}

// The place of n and of the smaller of k and n - k among all pairs of a row length and a number up to its half. Small products are made in 32
// bits: a product of 64 is a call on a narrow processor.
pub fn half_place(n: u64, k: u64) -> u64
    requires { (n ≤ 16) × (k ≤ n) }
    ensures { result ≡ half_place n k }
{
    let side = (n + 1) as u32;
    (side * side / 4) as u64 + nearer(n, k)
}

// The table's entry for q, n and k: the Gaussian coefficient, 0 where it is above 2^64 - 1.
pub fn coefficient(q: u64, n: u64, k: u64) -> u64
    requires { T (is_field_size q) × (n ≤ 16) × (k ≤ 16) }
    ensures { result ≡ table_entry q n k }
{
    if n < k {
        return 0;
    }
    let part = field::position(q) as u32;
    lookup::count((part * 81) as u64 + half_place(n, k))
}

// q^m.
pub fn power(q: u64, m: usize) -> u64
    requires { T (is_field_size q) × (m ≤ 64) × (q ^ m ≤ greatest_count) }
    ensures { result ≡ q ^ m }
{
    if q % 2 == 0 {
        return 1u64 << field::bits(q) * m as u32;
    }
    match q {
        3 => lookup::power(m as u64),
        5 => lookup::power(41 + m as u64),
        _ => lookup::power(69 + m as u64),
    }
}

// q^k [n, k], the first term of formula (4): the number of reduced matrices of n + 1 columns whose last column has no pivot. `each` is [n, k],
// as many as there are for each value of that column.
pub fn free_of(q: u64, n: u64, k: u64, each: u64) -> u64
    requires { T (is_field_size q) × (n < 16) × (k ≤ 16) × (gaussian q (suc n) k ≤ greatest_count) × (each ≡ table_entry q n k) }
    ensures { result ≡ q ^ k * gaussian q n k }
{
    power(q, k as usize) * each
}

// The same, where each is not known yet.
pub fn free_count(q: u64, n: u64, k: u64) -> u64
    requires { T (is_field_size q) × (n < 16) × (k ≤ 16) × (gaussian q (suc n) k ≤ greatest_count) }
    ensures { result ≡ q ^ k * gaussian q n k }
{
    free_of(q, n, k, coefficient(q, n, k))
}
