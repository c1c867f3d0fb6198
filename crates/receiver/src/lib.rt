// The receiver: the reduced rows of all rows taken so far, the settings, and the pack that it belongs to.
#![tactic(auto)]

ghost use Rattle.std.specs.Prelude.{◌≡◌, false, IfOk};
ghost use Rattle.std.specs.Bool.{then_some};
ghost use Rattle.matrix.specs.Matrix.{identifying};
ghost use Rattle.refusal.specs.Refusal.{refusal_number};
ghost use Rattle.receive.specs.Answer.{Told};
ghost use Rattle.receiver.specs.Receiver.{setup, setup_refusal, offer, empty, start_of, start_number, used, well_formed, is_zero};
ghost use Rattle.receiver.specs.Receiver.{take_refusal, taken_in, take_of, TakeTells};
ghost use Rattle.receiver.specs.Receiver.{lent_receiver, lent_answer, taken_as, close_refusal, close_of};
ghost use Rattle.receiver.specs.Laws.TakeAccepted.{TakeAccepted};

use numbering::Index;
use receive::Unreceived;
use reduce::Space;
use refusal::Refusal;

// The first n×n entries hold the reduced rows, then zeros; so are all others. The pack is the one whose rows are taken. An array with its
// sizes beside: a receiver has fixed memory, and may be lent with any fields, which Take and Close test.
#[derive(Clone, Copy)]
pub struct Receiver {
    pub entries: [u8; 256],
    pub q: u64,
    pub n: u64,
    pub k: u64,
    pub dimension: u64,
    pub pack: u16,
}

// What Start answers. The receiver stands beside the answer, and not in it, because a refused start hands back one too.
#[derive(Drop)]
pub struct Started {
    pub receiver: Receiver,
    pub answer: Result<(), Refusal>,
}

// What a row that Take does not refuse does to the receiver.
#[derive(Clone, Copy, Debug, PartialEq, Eq)]
pub enum Effect {
    Raised,
    Held,
    Idle,
}

// The receiver handed back by Take, and the answer.
#[derive(Drop)]
pub struct Taken {
    pub receiver: Receiver,
    pub answer: Result<Effect, Refusal>,
}

// Start: a receiver that belongs to the pack and holds no rows. Refuses 1, 2, 3, with a receiver of all zeros.
pub fn start(q: u64, n: u64, k: u64, pack: u16) -> Started
    ensures value { result ≡ start_of (setup q n k pack) }
    ensures result_value { start_number result ≡ setup_refusal (setup q n k pack) }
{
    match settings::check(q, n, k) {
        Ok(()) => Started {
            receiver: Receiver::empty(q, n, k, pack),
            answer: Ok(()),
        },
        Err(refusal) => Started {
            receiver: Receiver::empty(0, 0, 0, 0),
            answer: Err(refusal),
        },
    }
}

// What the tests of Take find where none refuses: the receiver's identifying vector, and whether the row is zero.
#[derive(Clone, Copy)]
struct Tested {
    vector: u16,
    zero: bool,
}

impl Receiver {
    // A receiver with this setup that holds no rows.
    pub fn empty(q: u64, n: u64, k: u64, pack: u16) -> Receiver
        ensures { result ≡ empty (setup q n k pack) }
    {
        Receiver {
            entries: [0u8; 256],
            q,
            n,
            k,
            dimension: 0,
            pack,
        }
    }

    // The identifying vector, where the receiver is one that Start and Take can leave after an accepted Start. The dimension is known to be
    // at most n, and n at most 16, before the two are multiplied.
    fn formed(&self) -> Option<u16>
        ensures { result ≡ then_some (well_formed self.now) (identifying self.now.n self.now.dimension (used self.now)) }
    {
        if self.n < self.dimension {
            return None;
        }
        settings::check(self.q, self.n, self.k).ok()?;
        let size = (self.dimension * self.n) as usize;
        let walked = walk::rows(
            &self.entries[..size],
            self.n as usize,
            self.dimension as usize,
        );
        if walked.oversized(self.q) {
            return None;
        }
        if !matrix::entries_below(&self.entries[size..], 1) {
            return None;
        }
        walked.reduced.then_some(walked.vector)
    }

    // Whether the receiver is one that Start and Take can leave after an accepted Start.
    pub fn is_formed(self) -> bool
        ensures { result ≡ well_formed self }
    {
        self.formed().is_some()
    }

    // Tests a row that is offered to Take: the first of the refusals 14, 17, 4, 6 that applies. The row's entries are looked at once.
    fn check_take(self, pack: u16, row: &[u8]) -> Result<Tested, Refusal>
        ensures refusal { refusal_number result ≡ take_refusal self (offer pack row.now) }
        ensures tested { IfOk result (λ t. (t.vector ≡ identifying self.n self.dimension (used self)) × (t.zero ≡ is_zero row.now)) }
    {
        let vector = self.formed().ok_or(Refusal::Receiver)?;
        if pack != self.pack {
            return Err(Refusal::Pack);
        }
        if row.len() as u64 != self.n {
            return Err(Refusal::Length);
        }
        let greatest = matrix::greatest(row);
        if self.q <= greatest as u64 {
            return Err(Refusal::Entry);
        }
        Ok(Tested {
            vector,
            zero: greatest < 1,
        })
    }

    // The row taken in; every test has been made, found the receiver's identifying vector, and the row not zero.
    fn taken_in(self, row: &[u8], vector: u16) -> Taken
        requires { TakeAccepted self (offer self.pack row.now)
            × (is_zero row.now ≡ false)
            × (vector ≡ identifying self.n self.dimension (used self)) }
        ensures { result ≡ taken_in self (offer self.pack row.now) }
    {
        let width = self.n as usize;
        let size = width * width;
        let before = self.dimension as usize;
        let mut entries = self.entries;
        let mut pivots = [0u8; 16];
        matrix::pivot_columns(vector, width, before, &mut pivots);
        let dimension = reduction::insert(
            self.q,
            width,
            before,
            row,
            &mut entries[..size],
            &mut pivots,
        );
        let mut receiver = self;
        receiver.entries = entries;
        receiver.dimension = dimension as u64;
        if before < dimension {
            return Taken {
                receiver,
                answer: Ok(Effect::Raised),
            };
        }
        Taken {
            receiver,
            answer: Ok(Effect::Held),
        }
    }

    // Take: the receiver with the row taken in, and whether the dimension grew, the row was held already, or the row is zero and so idle.
    // Refuses 14, 17 (the row is offered for another pack), 4 (the row is not n bytes), 6. Unless the dimension grew, the receiver is
    // handed back unchanged.
    pub fn take(self, pack: u16, row: &[u8]) -> Taken
        ensures { (result ≡ take_of self (offer pack row.now)) × TakeTells self (offer pack row.now) result }
    {
        match self.check_take(pack, row) {
            Err(refusal) => Taken {
                receiver: self,
                answer: Err(refusal),
            },
            Ok(tested) if tested.zero => Taken {
                receiver: self,
                answer: Ok(Effect::Idle),
            },
            Ok(tested) => self.taken_in(row, tested.vector),
        }
    }

    // Close: the index, in the numbering t, of the space of all rows taken, with its dimension and identifying vector. Refuses 14, 10, 8,
    // 9, the last two with the dimension and the vector. The receiver may take more rows.
    pub fn close(self, t: u64) -> Result<(Index, Space), Unreceived>
        ensures value { result ≡ close_of self t }
        ensures told { Told self.q self.n self.k t self.dimension (used self) (close_refusal self t) result }
    {
        let vector = self.formed().ok_or(Refusal::Receiver)?;
        if !numbering::is_numbering(t) {
            return Err(Unreceived::Refused(Refusal::Numbering));
        }
        let size = (self.dimension * self.n) as usize;
        let space = Space {
            dimension: self.dimension,
            vector,
        };
        receive::space_answer(self.q, self.n, self.k, t, space, &self.entries[..size])
    }
}

// Take on a lent receiver: copies it out, takes the row into the copy, and stores that back.
pub fn take_lent(r: &mut Receiver, pack: u16, row: &[u8]) -> Result<Effect, Refusal>
    ensures value { (result ≡ lent_answer r.old (offer pack row.now))
        × TakeTells r.old (offer pack row.now)
        (taken_as (lent_receiver r.old (offer pack row.now)) result) }
    ensures r_after { r.new ≡ lent_receiver r.old (offer pack row.now) }
{
    let taken = r.take(pack, row);
    *r = taken.receiver;
    taken.answer
}
