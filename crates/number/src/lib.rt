// Number: matrix to index.
#![tactic(auto)]

ghost use Rattle.std.specs.Prelude.{◌≡◌};
ghost use Rattle.refusal.specs.Refusal.{unless_refused};
ghost use Rattle.numbering.specs.Numbering.{index_of};
ghost use Rattle.number.specs.Number.{number_refusal, number_of, answer_number, answer_index};

use numbering::Index;
use refusal::Refusal;

// Number: the index of a reduced matrix in the numbering t. Refuses 1, 2, 3, 10, 4 (not exactly k×n bytes), 6, 7.
pub fn number(q: u64, n: u64, k: u64, t: u64, matrix: &[u8]) -> Result<Index, Refusal>
    ensures value { result ≡ number_of q n k t matrix.now }
    ensures result_value { (answer_number result ≡ number_refusal q n k t matrix.now)
        × (answer_index result ≡ unless_refused (number_refusal q n k t matrix.now) (index_of q n k t matrix.now) 0) }
{
    numbering::check(q, n, k, t)?;
    if matrix.len() as u64 != k * n {
        return Err(Refusal::Length);
    }
    let walked = walk::rows(matrix, n as usize, k as usize);
    if walked.oversized(q) {
        return Err(Refusal::Entry);
    }
    if !walked.reduced {
        return Err(Refusal::NotReduced);
    }
    Ok(numbering::rank(matrix, q, n as usize, k as usize, t, walked.vector))
}
