// A caller of each public call and of each function for C, that asks nothing of its own caller and repeats the whole contract of what it
// calls: where a contract loses a clause, or asks something, its caller here is refused. No part of the product.
#![tactic(auto)]

ghost use Rattle.std.specs.Prelude.{◌≡◌, length, take};
ghost use Rattle.refusal.specs.Refusal.{refusal_number, unless_refused};
ghost use Rattle.counts.specs.Gaussian.{gaussian, counts as counts_table};
ghost use Rattle.settings.specs.Settings.{settings_refusal, count_of, count_number, count_value};
ghost use Rattle.matrix.specs.Matrix.{identifying};
ghost use Rattle.linear.specs.Span.{rows_of};
ghost use Rattle.linear.specs.Eliminate.{reduced_of, dimension as dimension_of};
ghost use Rattle.numbering.specs.Numbering.{index_of, drawn};
ghost use Rattle.draw.specs.Draw.{draw_refusal, draw_buffer};
ghost use Rattle.draw_batch.specs.Batch.{batch_refusal, batch_matrices, batch_answers};
ghost use Rattle.number.specs.Number.{number_refusal, number_of, answer_number, answer_index};
ghost use Rattle.convert.specs.Convert.{convert_refusal, convert_of};
ghost use Rattle.reduce.specs.Reduce.{reduce_refusal, reduce_of, reduce_buffer};
ghost use Rattle.reduce.specs.Reduce.{reduction_number, reduction_dimension, reduction_vector};
ghost use Rattle.distance.specs.Distance.{distance_refusal, distance_of, distance_number, distance_value};
ghost use Rattle.receive.specs.Answer.{Told, received_number};
ghost use Rattle.receive.specs.Receive.{receive_refusal, receive_of};
ghost use Rattle.receiver.specs.Receiver.{setup, setup_refusal, offer, start_of, start_number, used, held_rows, take_of, TakeTells};
ghost use Rattle.receiver.specs.Receiver.{lent_receiver, lent_answer, taken_as, close_refusal, close_of};
ghost use Rattle.spaces.specs.Spaces.{joint_dimension, common_dimension};
ghost use Rattle.spaces.specs.Distance.{distance as distance_of_rows};
ghost use Rattle.pool.specs.Pool.{pool_refusal, pool_of, joint_buffer, common_buffer, pool_number, pool_joint, pool_common};
ghost use Rattle.pandrwyg.specs.Exported.{answer_bytes, exported_of, exported_number, exported_bytes};
ghost use Rattle.promise_recovery.specs.Demand.{little_endian};
ghost use Rattle.settings_line.specs.SettingsLine.{parsed};
ghost use Rattle.listing.specs.Steps.{begun, chunk_of, next_state};
ghost use Rattle.listing.specs.Front.{written};

use listing::{State, Stepped};
use numbering::Index;
use pool::Pooled;
use receive::Unreceived;
use receiver::{Receiver, Started, Taken};
use reduce::Space;
use refusal::Refusal;
use settings_line::Settings;

pub fn count(q: u64, n: u64, k: u64) -> Result<u64, Refusal>
    ensures value { result ≡ count_of q n k }
    ensures result_value { (count_number result ≡ settings_refusal q n k) × (count_value result ≡ unless_refused (settings_refusal q n k) (gaussian q n k) 0) }
{
    settings::count(q, n, k)
}

pub fn all_counts() -> [u64; 1734]
    ensures { result ≡ counts_table }
{
    counts::all_counts()
}

pub fn draw_one(
    q: u64,
    n: u64,
    k: u64,
    t: u64,
    index: u64,
    matrix: &mut [u8],
) -> Result<(), Refusal>
    ensures value { refusal_number result ≡ draw_refusal q n k t index (length matrix.old) }
    ensures matrix_after { matrix.new ≡ draw_buffer q n k t index matrix.old }
{
    draw::draw(q, n, k, t, index, matrix)
}

pub fn draw_many(
    q: u64,
    n: u64,
    k: u64,
    t: u64,
    indexes: &[u64],
    matrices: &mut [u8],
    answers: &mut [u8],
) -> Result<(), Refusal>
    ensures value { refusal_number result
        ≡ batch_refusal q n k t (length indexes.now) (length matrices.old) (length answers.old) }
    ensures matrices_after { matrices.new
        ≡ batch_matrices q n k t indexes.now matrices.old (length answers.old) }
    ensures answers_after { answers.new
        ≡ batch_answers q n k t indexes.now (length matrices.old) answers.old }
{
    draw_batch::draw_batch(q, n, k, t, indexes, matrices, answers)
}

pub fn number_one(q: u64, n: u64, k: u64, t: u64, matrix: &[u8]) -> Result<Index, Refusal>
    ensures value { result ≡ number_of q n k t matrix.now }
    ensures result_value { (answer_number result ≡ number_refusal q n k t matrix.now)
        × (answer_index result ≡ unless_refused (number_refusal q n k t matrix.now) (index_of q n k t matrix.now) 0) }
{
    number::number(q, n, k, t, matrix)
}

pub fn convert_one(q: u64, n: u64, k: u64, from: u64, to: u64, index: u64) -> Result<Index, Refusal>
    ensures value { result ≡ convert_of q n k from to index }
    ensures result_value { (answer_number result ≡ convert_refusal q n k from to index)
        × (answer_index result ≡ unless_refused (convert_refusal q n k from to index) (index_of q n k to (drawn q n k from index)) 0) }
{
    convert::convert(q, n, k, from, to, index)
}

pub fn reduce_rows(
    q: u64,
    n: u64,
    row_count: u64,
    rows: &[u8],
    output: &mut [u8],
) -> Result<Space, Refusal>
    ensures value { result ≡ reduce_of q n row_count rows.now (length output.old) }
    ensures output_after { output.new ≡ reduce_buffer q n row_count rows.now output.old }
    ensures result_value { (reduction_number result ≡ reduce_refusal q n row_count rows.now (length output.old))
        × (reduction_dimension result ≡ unless_refused (reduce_refusal q n row_count rows.now (length output.old))
        (dimension_of q n (rows_of n row_count rows.now)) 0)
        × (reduction_vector result ≡ unless_refused (reduce_refusal q n row_count rows.now (length output.old))
        (identifying n (dimension_of q n (rows_of n row_count rows.now))
        (reduced_of q n (rows_of n row_count rows.now))) 0) }
{
    reduce::reduce(q, n, row_count, rows, output)
}

pub fn distance_of_rows(
    q: u64,
    n: u64,
    first_count: u64,
    first: &[u8],
    second_count: u64,
    second: &[u8],
) -> Result<u64, Refusal>
    ensures value { result ≡ distance_of q n first_count first.now second_count second.now }
    ensures result_value { (distance_number result ≡ distance_refusal q n first_count first.now second_count second.now)
        × (distance_value result ≡ unless_refused (distance_refusal q n first_count first.now second_count second.now)
        (distance_of_rows q n (rows_of n first_count first.now) (rows_of n second_count second.now)) 0) }
{
    distance::distance(q, n, first_count, first, second_count, second)
}

pub fn receive_rows(
    q: u64,
    n: u64,
    k: u64,
    t: u64,
    row_count: u64,
    rows: &[u8],
) -> Result<(Index, Space), Unreceived>
    ensures value { result ≡ receive_of q n k t row_count rows.now }
    ensures told { Told q n k t (dimension_of q n (rows_of n row_count rows.now))
        (reduced_of q n (rows_of n row_count rows.now)) (receive_refusal q n k t row_count rows.now) result }
{
    receive::receive(q, n, k, t, row_count, rows)
}

pub fn start(q: u64, n: u64, k: u64, pack: u16) -> Started
    ensures value { result ≡ start_of (setup q n k pack) }
    ensures result_value { start_number result ≡ setup_refusal (setup q n k pack) }
{
    receiver::start(q, n, k, pack)
}

pub fn take(receiver: Receiver, pack: u16, row: &[u8]) -> Taken
    ensures { (result ≡ take_of receiver (offer pack row.now)) × TakeTells receiver (offer pack row.now) result }
{
    receiver.take(pack, row)
}

// Lends a local to Take, and hands back what is then in it.
pub fn taken_lent(mut receiver: Receiver, pack: u16, row: &[u8]) -> Taken
    ensures { (result.answer ≡ lent_answer receiver (offer pack row.now))
        × TakeTells receiver (offer pack row.now)
        (taken_as (lent_receiver receiver (offer pack row.now)) result.answer)
        × (result.receiver ≡ lent_receiver receiver (offer pack row.now)) }
{
    let answer = receiver::take_lent(&mut receiver, pack, row);
    Taken { receiver, answer }
}

pub fn close(receiver: Receiver, t: u64) -> Result<(Index, Space), Unreceived>
    ensures value { result ≡ close_of receiver t }
    ensures told { Told receiver.q receiver.n receiver.k t receiver.dimension (used receiver) (close_refusal receiver t) result }
{
    receiver.close(t)
}

pub fn pool_two(a: Receiver, b: Receiver, joint: &mut [u8], common: &mut [u8]) -> Pooled
    ensures value { result ≡ pool_of a b (length joint.old) (length common.old) }
    ensures joint_after { joint.new ≡ joint_buffer a b joint.old (length common.old) }
    ensures common_after { common.new ≡ common_buffer a b (length joint.old) common.old }
    ensures answer_value { (pool_number result.answer ≡ pool_refusal a b (length joint.old) (length common.old))
        × (pool_joint result.answer ≡ unless_refused (pool_refusal a b (length joint.old) (length common.old))
        (joint_dimension a.q a.n (held_rows a) (held_rows b)) 0)
        × (pool_common result.answer ≡ unless_refused (pool_refusal a b (length joint.old) (length common.old))
        (common_dimension a.q a.n (held_rows a) (held_rows b)) 0) }
{
    pool::pool(a, b, joint, common)
}

pub fn parse(text: &[u8]) -> Option<Settings>
    ensures { result ≡ parsed text.now }
{
    settings_line::parse(text)
}

pub fn begin(input: &[u8]) -> State
    ensures { result ≡ begun input.now }
{
    listing::begin(input)
}

pub fn step(state: State, chunk: &mut [u8; listing::CHUNK_SIZE]) -> Stepped
    ensures { (result.state ≡ next_state state) × (result.size ≡ length (chunk_of state))
        × (chunk.new ≡ written (chunk_of state) chunk.old) }
{
    listing::step(state, chunk)
}

pub fn draw_for_c(q: u64, n: u64, k: u64, t: u64, index: u64, matrix: &mut [u8]) -> u32
    ensures value { result ≡ draw_refusal q n k t index (length matrix.old) }
    ensures matrix_after { matrix.new ≡ draw_buffer q n k t index matrix.old }
{
    pandrwyg::pandrwyg_draw_raw(q, n, k, t, index, matrix)
}

pub fn draw_batch_for_c(
    q: u64,
    n: u64,
    k: u64,
    t: u64,
    indexes: &[u64],
    matrices: &mut [u8],
    answers: &mut [u8],
) -> u32
    ensures value { result
        ≡ batch_refusal q n k t (length indexes.now) (length matrices.old) (length answers.old) }
    ensures matrices_after { matrices.new
        ≡ batch_matrices q n k t indexes.now matrices.old (length answers.old) }
    ensures answers_after { answers.new
        ≡ batch_answers q n k t indexes.now (length matrices.old) answers.old }
{
    pandrwyg::pandrwyg_draw_batch_raw(q, n, k, t, indexes, matrices, answers)
}

pub fn receive_for_c(
    q: u64,
    n: u64,
    k: u64,
    t: u64,
    row_count: u64,
    rows: &[u8],
    answer: &mut [u8],
) -> u32
    ensures value { result ≡ received_number (exported_of q n k t row_count rows.now (length answer.old)) }
    ensures answer_after { answer.new ≡ exported_bytes q n k t row_count rows.now answer.old }
    ensures value_2 { result ≡ exported_number q n k t row_count rows.now (length answer.old) }
{
    pandrwyg::pandrwyg_receive_raw(q, n, k, t, row_count, rows, answer)
}

// A round trip in C's terms: the matrix with the index is drawn to `matrix`, and received from there.
pub fn round_trip(
    q: u64,
    n: u64,
    k: u64,
    t: u64,
    index: u64,
    matrix: &mut [u8],
    answer: &mut [u8],
) -> u32
    ensures { draw_refusal q n k t index (length matrix.old) ≡ 0 → length answer.old ≡ 11
        → (result ≡ 0)
        × (answer.new ≡ answer_bytes index k (identifying n k matrix.new))
        × (little_endian (take 8 answer.new) ≡ index) }
{
    let refusal = pandrwyg::pandrwyg_draw_raw(q, n, k, t, index, matrix);
    if refusal != 0 {
        return refusal;
    }
    pandrwyg::pandrwyg_receive_raw(q, n, k, t, k, matrix, answer)
}
