// Pooling: two receivers with the same settings and pack become one that holds the smallest space containing both.
#![tactic(auto)]

ghost use Rattle.std.specs.Prelude.{◌≡◌, true, ◌++◌, ◌+◌, ◌*◌, length};
ghost use Rattle.refusal.specs.Refusal.{unless_refused, refusal_number};
ghost use Rattle.linear.specs.Eliminate.{join};
ghost use Rattle.reduction.specs.Padded.{padded};
ghost use Rattle.spaces.specs.Spaces.{stacked as stacked_of, joint_dimension, common_of, common_dimension};
ghost use Rattle.receiver.specs.Receiver.{setup_of, well_formed, held_rows, holding};
ghost use Rattle.pool.specs.Pool.{alike as alike_of, pool_refusal, pool_of, joint_buffer, common_buffer};
ghost use Rattle.pool.specs.Pool.{pool_number, pool_joint, pool_common};

use receiver::Receiver;
use refusal::Refusal;

// The dimensions of the joint and of the common space.
#[derive(Clone, Copy, Debug, PartialEq, Eq)]
pub struct Dimensions {
    pub joint: u64,
    pub common: u64,
}

// The pooled receiver, and what is answered of the two spaces. The receiver stands beside the answer, and not in it, because a refusal hands
// back one too.
#[derive(Drop)]
pub struct Pooled {
    pub receiver: Receiver,
    pub answer: Result<Dimensions, Refusal>,
}

// Whether two receivers have the same q, n and k, and belong to the same pack.
fn alike(a: Receiver, b: Receiver) -> bool
    ensures { result ≡ alike_of a b }
{
    (a.q, a.n, a.k, a.pack) == (b.q, b.n, b.k, b.pack)
}

// Tests two receivers and the lengths of the two buffers: the first of pooling's refusals that applies.
fn check(a: Receiver, b: Receiver, joint: usize, common: usize) -> Result<(), Refusal>
    ensures { refusal_number result ≡ pool_refusal a b joint common }
{
    if !a.is_formed() {
        return Err(Refusal::Receiver);
    }
    if !b.is_formed() {
        return Err(Refusal::Receiver);
    }
    if !alike(a, b) {
        return Err(Refusal::Mismatch);
    }
    let size = a.n * a.n;
    if joint as u64 != size {
        return Err(Refusal::Length);
    }
    if common as u64 != size {
        return Err(Refusal::Length);
    }
    Ok(())
}

// The rows of both receivers one above the other, those of the first beside themselves and those of the second beside zeros.
fn stacked(a: Receiver, b: Receiver) -> [u8; 1024]
    requires { (well_formed a ≡ true) × (well_formed b ≡ true) × (alike_of a b ≡ true) }
    ensures { result ≡ padded 1024 (join (stacked_of a.n (held_rows a) (held_rows b))) }
{
    let width = a.n as usize;
    let first = a.dimension as usize;
    let second = b.dimension as usize;
    let middle = first * (width + width);
    let mut rows = [0u8; 1024];
    double_rows::stack(
        width,
        first,
        &a.entries[..first * width],
        true,
        &mut rows,
        0,
    );
    double_rows::stack(
        width,
        second,
        &b.entries[..second * width],
        false,
        &mut rows,
        middle,
    );
    rows
}

// Writes the matrix of the common space of two receivers with the same settings, then zeros, and answers its number of rows.
fn common_rows(a: Receiver, b: Receiver, out: &mut [u8]) -> usize
    requires { (well_formed a ≡ true) × (well_formed b ≡ true) × (alike_of a b ≡ true) × (length out.old ≡ a.n * a.n) }
    ensures value { result ≡ common_dimension a.q a.n (held_rows a) (held_rows b) }
    ensures out_after { out.new ≡ padded (a.n * a.n) (common_of a.q a.n (held_rows a) (held_rows b)) }
{
    let width = a.n as usize;
    let double = width + width;
    let count = (a.dimension + b.dimension) as usize;
    let rows = stacked(a, b);
    let mut matrix = [0u8; 1024];
    let mut pivots = [0u8; 32];
    let d = reduction::insert_rows(
        a.q,
        double,
        0,
        count,
        &rows[..count * double],
        &mut matrix[..double * double],
        &mut pivots,
    );
    double_rows::right_halves(width, d, &matrix, &pivots, out)
}

// The receiver that holds the rows of two receivers with the same settings.
fn joined(a: Receiver, b: Receiver) -> Receiver
    requires { (well_formed a ≡ true) × (well_formed b ≡ true) × (alike_of a b ≡ true) }
    ensures { result ≡ holding (setup_of a) (held_rows a ++ held_rows b) }
{
    let width = a.n as usize;
    let size = width * width;
    let first = a.dimension as usize;
    let second = b.dimension as usize;
    let mut entries = [0u8; 256];
    let mut pivots = [0u8; 16];
    let held = reduction::insert_rows(
        a.q,
        width,
        0,
        first,
        &a.entries[..first * width],
        &mut entries[..size],
        &mut pivots,
    );
    let dimension = reduction::insert_rows(
        a.q,
        width,
        held,
        second,
        &b.entries[..second * width],
        &mut entries[..size],
        &mut pivots,
    );
    Receiver {
        entries,
        dimension: dimension as u64,
        ..a
    }
}

// Pool: writes the reduced matrices of the smallest space that contains both receivers' and of their common space, each with zeros after
// its rows; hands back a receiver that holds the former, and both dimensions. Refuses 14 for the first receiver, then for the second, 16
// (q, n, k or the packs differ), 4 (a buffer is not n×n bytes), and then hands back a receiver of all zeros and leaves both buffers.
pub fn pool(a: Receiver, b: Receiver, joint: &mut [u8], common: &mut [u8]) -> Pooled
    ensures value { result ≡ pool_of a b (length joint.old) (length common.old) }
    ensures joint_after { joint.new ≡ joint_buffer a b joint.old (length common.old) }
    ensures common_after { common.new ≡ common_buffer a b (length joint.old) common.old }
    ensures answer_value { (pool_number result.answer ≡ pool_refusal a b (length joint.old) (length common.old))
        × (pool_joint result.answer ≡ unless_refused (pool_refusal a b (length joint.old) (length common.old))
        (joint_dimension a.q a.n (held_rows a) (held_rows b)) 0)
        × (pool_common result.answer ≡ unless_refused (pool_refusal a b (length joint.old) (length common.old))
        (common_dimension a.q a.n (held_rows a) (held_rows b)) 0) }
{
    if let Err(refusal) = check(a, b, joint.len(), common.len()) {
        return Pooled {
            receiver: Receiver::empty(0, 0, 0, 0),
            answer: Err(refusal),
        };
    }
    let shared = common_rows(a, b, common);
    let receiver = joined(a, b);
    let size = joint.len();
    joint.copy_from_slice(&receiver.entries[..size]);
    Pooled {
        receiver,
        answer: Ok(Dimensions {
            joint: receiver.dimension,
            common: shared as u64,
        }),
    }
}
