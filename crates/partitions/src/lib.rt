// The partition counts: how many Ferrers diagrams a box has, by their dots.
#![tactic(auto)]

mod lookup;

ghost use Rattle.std.specs.Prelude.{◌≡◌, ◌*◌, ◌-◌, ◌≤◌};
ghost use Rattle.partitions.specs.Partitions.{box_count, free_count};
ghost use Rattle.partitions.specs.Laws.PackedCounts.{packed as packed_count, box_begin};

// The i-th of the packed partition counts.
fn packed(i: u64) -> u64
    ensures { result ≡ packed_count i }
{
    (lookup::word(i / 4) >> (i % 4 * 16)) % 65536
}

// Where the counts of the box of k rows and n - k columns begin.
pub fn box_begin(n: usize, k: usize) -> u64
    requires { (n ≤ 16) × (k ≤ n) }
    ensures { result ≡ box_begin n k }
{
    lookup::begin(counts::half_place(n as u64, k as u64))
}

// p(k, n-k, m), the number of Ferrers diagrams of m dots in a box of k rows and n - k columns, which has room for `limit` dots; its counts
// begin at `begin`.
pub fn box_entry(n: usize, k: usize, begin: u64, limit: usize, m: usize) -> u64
    requires { (n ≤ 16) × (k ≤ n) × (begin ≡ box_begin n k) × (limit ≡ k * (n - k)) × (m ≤ limit) }
    ensures { result ≡ box_count n k m }
{
    packed(begin + counts::nearer(limit as u64, m as u64))
}

// The same for any k and m; 0 where there is no such box or no room.
pub fn box_count(n: usize, k: usize, m: usize) -> u64
    requires { n ≤ 16 }
    ensures { result ≡ box_count n k m }
{
    if n < k {
        return 0;
    }
    let limit = (k as u32 * (n - k) as u32) as usize;
    if limit < m {
        return 0;
    }
    box_entry(n, k, box_begin(n, k), limit, m)
}

// The diagrams of m dots that begin with a free column of k dots, n columns being left after it.
pub fn free_boxes(n: usize, k: usize, m: usize) -> u64
    requires { n ≤ 16 }
    ensures { result ≡ free_count n k m }
{
    if m < k {
        return 0;
    }
    box_count(n, k, m - k)
}
