// The two numberings side by side: what stands for which, and the index and the matrix in either.
#![tactic(auto)]

ghost use Rattle.std.specs.Prelude.{◌≡◌, ◌*◌, ◌<◌, eqb, length, IfOk};
ghost use Rattle.refusal.specs.Refusal.{refusal_number};
ghost use Rattle.counts.specs.Gaussian.{gaussian};
ghost use Rattle.settings.specs.Laws.Accepted.{Accepted};
ghost use Rattle.matrix.specs.Matrix.{identifying, Reduced};
ghost use Rattle.extended.specs.Extended.{extended_index};
ghost use Rattle.ferrers.specs.Ferrers.{ferrers_index};
ghost use Rattle.numbering.specs.Numbering.{is_numbering, code, Chooses, choice_refusal, index_in, index_of, index_value, drawn};

use extended::ExtendedIndex;
use ferrers::FerrersIndex;
use refusal::Refusal;

// The numbers of the two numberings, as the calls take them.
pub const EXTENDED: u64 = 1;

pub const FERRERS: u64 = 2;

// The numberings of document 01.
#[derive(Clone, Copy, Debug, PartialEq, Eq)]
pub enum Numbering {
    Extended,
    Ferrers,
}

// The numbering that a number stands for. Refuses 10. The calls take a number, since each meets every number, with an answer or with 10.
impl TryFrom<u64> for Numbering {
    type Error = Refusal;

    ghost try_from_gives = { Chooses };

    fn try_from(t: u64) -> Result<Self, Refusal> {
        match t {
            EXTENDED => Ok(Numbering::Extended),
            FERRERS => Ok(Numbering::Ferrers),
            _ => Err(Refusal::Numbering),
        }
    }
}

// An index, with the numbering it is of.
#[derive(Clone, Copy)]
pub enum Index {
    Extended(ExtendedIndex),
    Ferrers(FerrersIndex),
}

// The number of an index, whichever numbering it is of.
impl From<Index> for u64 {
    ghost from_gives = { λ i n. n ≡ index_value i };

    fn from(index: Index) -> u64 {
        match index {
            Index::Extended(i) => i.0,
            Index::Ferrers(i) => i.0,
        }
    }
}

// Tests the settings and the numbering, which it answers: the first of the refusals 1, 2, 3, 10 that applies.
pub fn check(q: u64, n: u64, k: u64, t: u64) -> Result<Numbering, Refusal>
    ensures refusal { refusal_number result ≡ choice_refusal q n k t }
    ensures chosen { IfOk result (λ c. code c ≡ t) }
{
    settings::check(q, n, k)?;
    Numbering::try_from(t)
}

// The indexes of a space, one in each numbering.
#[derive(Clone, Copy)]
pub struct Indexes {
    pub extended: ExtendedIndex,
    pub ferrers: FerrersIndex,
}

impl Numbering {
    // The index of a reduced matrix; v is the identifying vector.
    fn rank_in(self, m: &[u8], q: u64, n: usize, k: usize, v: u16) -> Index
        requires { Accepted q n k × Reduced q n k m.now × (v ≡ identifying n k m.now) }
        ensures { result ≡ index_in (code self) (index_of q n k (code self) m.now) }
    {
        match self {
            Numbering::Extended => Index::Extended(extended::rank(m, q, n, k, v)),
            Numbering::Ferrers => Index::Ferrers(ferrers::rank(m, q, n, k, v)),
        }
    }

    // The same, the slice and the index each handed over in its two parts. Copied whole, each would be read back from memory, 16 bytes at
    // once, before its parts are stored there, and that read would wait.
    pub fn rank(self, m: &[u8], q: u64, n: usize, k: usize, v: u16) -> Index
        requires { Accepted q n k × Reduced q n k m.now × (v ≡ identifying n k m.now) }
        ensures { result ≡ index_in (code self) (index_of q n k (code self) m.now) }
    {
        match self.rank_in(&m[..k * n], q, n, k, v) {
            Index::Extended(index) => Index::Extended(index),
            Index::Ferrers(index) => Index::Ferrers(index),
        }
    }

    // Writes the reduced matrix with the given index, and answers its identifying vector.
    pub fn unrank(self, m: &mut [u8], q: u64, n: usize, k: usize, index: u64) -> u16
        requires { Accepted q n k × (index < gaussian q n k) × (length m.old ≡ k * n) }
        ensures m_after { m.new ≡ drawn q n k (code self) index }
        ensures value { result ≡ identifying n k (drawn q n k (code self) index) }
    {
        match self {
            Numbering::Extended => extended::unrank(m, q, n, k, ExtendedIndex(index)),
            Numbering::Ferrers => ferrers::unrank(m, q, n, k, FerrersIndex(index)),
        }
    }

    // Writes the reduced matrix with the given index, and answers its index in either numbering. Every matrix that is drawn is reduced, so
    // it has both, and nothing is left to refuse.
    pub fn unrank_indexes(self, m: &mut [u8], q: u64, n: usize, k: usize, index: u64) -> Indexes
        requires { Accepted q n k × (index < gaussian q n k) × (length m.old ≡ k * n) }
        ensures m_after { m.new ≡ drawn q n k (code self) index }
        ensures extended_value { (result.extended.0 ≡ extended_index q n k (drawn q n k (code self) index))
            × (result.ferrers.0 ≡ ferrers_index q n k (drawn q n k (code self) index)) }
    {
        let vector = self.unrank(m, q, n, k, index);
        match self {
            Numbering::Extended => Indexes {
                extended: ExtendedIndex(index),
                ferrers: ferrers::rank(m, q, n, k, vector),
            },
            Numbering::Ferrers => Indexes {
                extended: extended::rank(m, q, n, k, vector),
                ferrers: FerrersIndex(index),
            },
        }
    }

    // The index, in the numbering `to`, of the matrix that has the given index in this one.
    pub fn counterpart(self, to: Numbering, q: u64, n: usize, k: usize, index: u64) -> Index
        requires { Accepted q n k × (index < gaussian q n k) }
        ensures { result ≡ index_in (code to) (index_of q n k (code to) (drawn q n k (code self) index)) }
    {
        let mut entries = [0u8; 256];
        let found = self.unrank_indexes(&mut entries[..k * n], q, n, k, index);
        match to {
            Numbering::Extended => Index::Extended(found.extended),
            Numbering::Ferrers => Index::Ferrers(found.ferrers),
        }
    }
}

// Below the same by a numbering's number, each as it was: a public function takes every number that it took.

// The numbering that a number is read as: 1 is extended, and any other is read as Ferrers.
fn read_as(t: u64) -> Numbering
    ensures { eqb (code result) 1 ≡ eqb t 1 }
{
    if t == EXTENDED {
        return Numbering::Extended;
    }
    Numbering::Ferrers
}

// Whether t is one of the two numberings.
pub fn is_numbering(t: u64) -> bool
    ensures { result ≡ is_numbering t }
{
    Numbering::try_from(t).is_ok()
}

// The index of a reduced matrix in the numbering t; v is the identifying vector.
pub fn rank(m: &[u8], q: u64, n: usize, k: usize, t: u64, v: u16) -> Index
    requires { Accepted q n k × Reduced q n k m.now × (v ≡ identifying n k m.now) }
    ensures { result ≡ index_in t (index_of q n k t m.now) }
{
    read_as(t).rank(m, q, n, k, v)
}

// Writes the reduced matrix with the given index of the numbering t, and answers its identifying vector.
pub fn unrank(m: &mut [u8], q: u64, n: usize, k: usize, t: u64, index: u64) -> u16
    requires { Accepted q n k × (index < gaussian q n k) × (length m.old ≡ k * n) }
    ensures m_after { m.new ≡ drawn q n k t index }
    ensures value { result ≡ identifying n k (drawn q n k t index) }
{
    read_as(t).unrank(m, q, n, k, index)
}

// Writes the reduced matrix with the given index of the numbering t, and answers its index in either numbering.
pub fn unrank_indexes(m: &mut [u8], q: u64, n: usize, k: usize, t: u64, index: u64) -> Indexes
    requires { Accepted q n k × (index < gaussian q n k) × (length m.old ≡ k * n) }
    ensures m_after { m.new ≡ drawn q n k t index }
    ensures extended_value { (result.extended.0 ≡ extended_index q n k (drawn q n k t index))
        × (result.ferrers.0 ≡ ferrers_index q n k (drawn q n k t index)) }
{
    read_as(t).unrank_indexes(m, q, n, k, index)
}

// The index, in the numbering `to`, of the matrix that has the given index in the numbering `from`.
pub fn counterpart(q: u64, n: usize, k: usize, from: u64, to: u64, index: u64) -> Index
    requires { Accepted q n k × (index < gaussian q n k) }
    ensures { result ≡ index_in to (index_of q n k to (drawn q n k from index)) }
{
    read_as(from).counterpart(read_as(to), q, n, k, index)
}
