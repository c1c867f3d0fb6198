// Convert: an index of one numbering to that of the same space in the other.
#![tactic(auto)]

ghost use Rattle.std.specs.Prelude.{◌≡◌, IfOk};
ghost use Rattle.refusal.specs.Refusal.{refusal_number, unless_refused};
ghost use Rattle.numbering.specs.Numbering.{code, index_of, drawn};
ghost use Rattle.number.specs.Number.{answer_number, answer_index};
ghost use Rattle.convert.specs.Convert.{convert_refusal, convert_of};

use numbering::{Index, Numbering};
use refusal::Refusal;

// Tests the settings and both numberings, which it answers, and the index: the first refusal of Convert that applies.
fn check(
    q: u64,
    n: u64,
    k: u64,
    from: u64,
    to: u64,
    index: u64,
) -> Result<(Numbering, Numbering), Refusal>
    ensures refusal { refusal_number result ≡ convert_refusal q n k from to index }
    ensures chosen { IfOk result (λ c. (code c.0 ≡ from) × (code c.1 ≡ to)) }
{
    let first = numbering::check(q, n, k, from)?;
    let second = Numbering::try_from(to)?;
    if counts::coefficient(q, n, k) <= index {
        return Err(Refusal::Index);
    }
    Ok((first, second))
}

// Convert: the index, in the numbering `to`, of the matrix that has the given index in the numbering `from`.
// Refuses 1, 2, 3; 10 for the first numbering, then the second; 5.
pub fn convert(q: u64, n: u64, k: u64, from: u64, to: u64, index: u64) -> Result<Index, Refusal>
    ensures value { result ≡ convert_of q n k from to index }
    ensures result_value { (answer_number result ≡ convert_refusal q n k from to index)
        × (answer_index result ≡ unless_refused (convert_refusal q n k from to index) (index_of q n k to (drawn q n k from index)) 0) }
{
    let (first, second) = check(q, n, k, from, to, index)?;
    Ok(first.counterpart(second, q, n as usize, k as usize, index))
}
