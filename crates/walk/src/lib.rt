// The test of a matrix on one walk: row by row, each entry goes once into a state of a few numbers. No column is looked at again: a pivot's
// column is clear above it where no row above has marked it, and below it because the rows below begin farther to the right.
#![tactic(auto)]

ghost use Rattle.std.specs.Prelude.{◌≡◌, ◌+◌, ◌*◌, ◌-◌, ◌^◌, ◌≤◌, ◌<◌, length};
ghost use Rattle.walk.specs.Walk.{digit as digit_of, entered, row_read, extends as extends_by};
ghost use Rattle.walk.specs.Walk.{bounded, ended, walked, oversized as oversized_by};

// What is known of the row that is being read: the column of its next entry, its greatest entry so far, and a code of two bits for each
// column from the left: 0 or 1 as the entry is, 2 where it is more.
#[derive(Clone, Copy)]
pub struct Row {
    pub column: usize,
    pub greatest: u16,
    pub code: u32,
}

// What is known of the rows that have ended: the least number above their entries, their codes joined bit by bit, the least column where
// the next row's pivot may stand, whether they are reduced, and then their identifying vector, else 0. The flag stays beside the vector: the
// definitions of specs/Walk.antt are over these fields.
#[derive(Clone, Copy)]
pub struct Walk {
    pub bound: u32,
    pub code: u32,
    pub least: usize,
    pub reduced: bool,
    pub vector: u16,
}

// The two bits of an entry.
fn digit(x: u8) -> u32
    ensures { result ≡ digit_of x }
{
    x.min(2) as u32
}

impl Row {
    // Takes one entry in.
    fn enter(self, x: u8) -> Row
        requires { (self.column < 16) × (self.code < 2 ^ (2 * self.column)) }
        ensures { result ≡ entered self x }
    {
        Row {
            column: self.column + 1,
            greatest: self.greatest.max(x as u16),
            code: self.code + (digit(x) << (2 * self.column)),
        }
    }
}

impl Walk {
    // Whether the rows are reduced together with one more, whose code has `zeros` zeros below its lowest bit.
    #[tactic(auto, unfolding(crate::specs::Walk::extends))]
    fn extends(self, n: usize, zeros: usize) -> bool
        requires { n ≤ 16 }
        ensures { result ≡ extends_by n self zeros }
    {
        if !self.reduced || n <= zeros / 2 {
            return false;
        }
        zeros % 2 == 0 && self.least <= zeros / 2 && (self.code >> zeros) % 4 == 0
    }

    // The least number above the entries of the rows and of one more.
    fn bound_with(self, row: Row) -> u32
        ensures { result ≡ bounded self row }
    {
        if row.column == 0 {
            return self.bound;
        }
        self.bound.max(row.greatest as u32 + 1)
    }

    // Ends a row.
    fn end_row(self, row: Row, n: usize) -> Walk
        requires { (n ≤ 16) × (self.vector + 2 ^ (n - self.least) ≤ 2 ^ n) }
        ensures { result ≡ ended 32 n self row }
    {
        let zeros = row.code.trailing_zeros() as usize;
        let bound = self.bound_with(row);
        let code = self.code | row.code;
        if !self.extends(n, zeros) {
            return Walk {
                bound,
                code,
                reduced: false,
                vector: 0,
                ..self
            };
        }
        Walk {
            bound,
            code,
            least: zeros / 2 + 1,
            reduced: true,
            vector: matrix::add_pivot(self.vector, n, zeros / 2),
        }
    }

    // Whether an entry of the rows is q or more.
    pub fn oversized(self, q: u64) -> bool
        ensures { result ≡ oversized_by q self }
    {
        q < self.bound as u64
    }
}

// Reads row i, its entries from the left.
fn read_row(m: &[u8], n: usize, i: usize) -> Row
    requires { (n ≤ 16) × (i * n + n ≤ length m.now) }
    ensures { result ≡ row_read n m.now i n }
{
    let mut row = Row {
        column: 0,
        greatest: 0,
        code: 0,
    };
    for j in 0..n {
        row = row.enter(m[i * n + j]);
    }
    row
}

// Walks over the first k rows of n entries.
pub fn rows(m: &[u8], n: usize, k: usize) -> Walk
    requires { (n ≤ 16) × (k * n ≤ length m.now) }
    ensures { result ≡ walked 32 n m.now k }
{
    let mut walk = Walk {
        bound: 0,
        code: 0,
        least: 0,
        reduced: true,
        vector: 0,
    };
    for i in 0..k {
        walk = walk.end_row(read_row(m, n, i), n);
    }
    walk
}
