// The settings q, n and k that are accepted, and how many spaces they have. They stay three numbers in the crates above: docs/ name functions
// that take them so, and these may not ask for a type with an invariant instead.
#![tactic(auto)]

ghost use Rattle.std.specs.Prelude.{◌≡◌};
ghost use Rattle.refusal.specs.Refusal.{refusal_number, unless_refused};
ghost use Rattle.counts.specs.Gaussian.{gaussian};
ghost use Rattle.settings.specs.Settings.{row_length_ok, settings_refusal, list_refusal, count_of, count_number, count_value};

use refusal::Refusal;

// Document 01: "Row length n is 1 to 16."
pub fn row_length_ok(n: u64) -> bool
    ensures { result ≡ row_length_ok n }
{
    (1..=16).contains(&n)
}

// Tests the settings: the first of the refusals 1, 2, 3 that applies.
pub fn check(q: u64, n: u64, k: u64) -> Result<(), Refusal>
    ensures { refusal_number result ≡ settings_refusal q n k }
{
    if !field::is_size(q) {
        return Err(Refusal::FieldSize);
    }
    if !row_length_ok(n) || n < k {
        return Err(Refusal::Range);
    }
    if counts::coefficient(q, n, k) == 0 {
        return Err(Refusal::Count);
    }
    Ok(())
}

// The most spaces that are listed one by one. Document 01: "12 if N exceeds 65,536".
pub const GREATEST_LISTING: u64 = 65536;

// Tests the settings of a listing: the first of the refusals 1, 2, 3, 12 that applies.
pub fn check_listing(q: u64, n: u64, k: u64) -> Result<(), Refusal>
    ensures { refusal_number result ≡ list_refusal q n k }
{
    if count(q, n, k)? <= GREATEST_LISTING {
        Ok(())
    } else {
        Err(Refusal::Listing)
    }
}

// Count: the number of spaces. Refuses 1, 2, 3.
pub fn count(q: u64, n: u64, k: u64) -> Result<u64, Refusal>
    ensures value { result ≡ count_of q n k }
    ensures result_value { (count_number result ≡ settings_refusal q n k) × (count_value result ≡ unless_refused (settings_refusal q n k) (gaussian q n k) 0) }
{
    check(q, n, k)?;
    Ok(counts::coefficient(q, n, k))
}
