// Arithmetic of the field with q elements, on bytes.
#![tactic(auto)]

ghost use Rattle.std.specs.Prelude.{◌≡◌, false, ◌+◌, ◌/◌, ◌<◌, T, get_or};
ghost use Rattle.basics.specs.Member.{member};
ghost use Rattle.basics.specs.Laws.Member.{position as position_in};
ghost use Rattle.field.specs.Laws.Inverses.{inverses};
ghost use Rattle.field.specs.Laws.Kinds.{odd_sizes, element_bits};
ghost use Rattle.field.specs.Field.{field_sizes, is_field_size, is_polynomial};
ghost use Rattle.field.specs.Field.{add as sum, multiply as product, negate as negative, invert as inverse};

// The position of q's part in a table with a part for each field size; 6 where q is none.
pub fn position(q: u64) -> usize
    ensures { result ≡ position_in q field_sizes }
{
    match q {
        2 => 0,
        3 => 1,
        4 => 2,
        5 => 3,
        7 => 4,
        8 => 5,
        _ => 6,
    }
}

pub fn is_size(q: u64) -> bool
    ensures { result ≡ is_field_size q }
{
    position(q) < 6
}

// Of the field sizes 4 and 8 alone are multiples of 4.
pub fn is_polynomial(q: u64) -> bool
    requires { T (is_field_size q) }
    ensures { result ≡ is_polynomial q }
{
    q % 4 == 0
}

// How many bits an element has, where q is even: q is 2 to it.
pub fn bits(q: u64) -> u32
    ensures { result ≡ element_bits q }
{
    q.trailing_zeros()
}

// c·b of polynomials: each bit of c gives b at that bit's power of t. In four t^2 is cleared by the modulus. In eight t^3 is t + 1: what
// stands from t^3 on is added at t and at 1.
fn polynomial_product(q: u64, c: u16, b: u16) -> u16
    requires { T (is_polynomial q) × (c < q) × (b < q) }
    ensures { result ≡ product q c b }
{
    if q == 4 {
        let x = (c & 1) * b ^ (c & 2) * b;
        return x ^ (x >> 2) * 7;
    }
    let x = (c & 1) * b ^ (c & 2) * b ^ (c & 4) * b;
    let high = x >> 3;
    x & 7 ^ high ^ high * 2
}

// a + c·b of polynomials.
pub fn add_polynomial(q: u64, a: u8, c: u8, b: u8) -> u8
    requires { T (is_polynomial q) × (c < q) × (b < q) }
    ensures { result ≡ sum q a (product q c b) }
{
    a ^ polynomial_product(q, c as u16, b as u16) as u8
}

// 256 divided by q and rounded up.
fn reciprocal(q: u64) -> u16
    requires { T (member q odd_sizes) }
    ensures { result ≡ 255 / q + 1 }
{
    match q {
        3 => 86,
        5 => 52,
        _ => 37,
    }
}

// a + c·b of elements, modulo q, in one step: no sum and no product is made apart from it. The sum is at most q·q - q, and so far down the
// reciprocal gives the quotient by q. The compiler makes of this one loop for q = 2, where all is done bit by bit, and one for the odd sizes.
pub fn add_product(q: u64, a: u8, c: u8, b: u8) -> u8
    requires { T (is_field_size q) × (is_polynomial q ≡ false) × (a < q) × (c < q) × (b < q) }
    ensures { result ≡ sum q a (product q c b) }
{
    if q == 2 {
        return a ^ c & b;
    }
    let x = a as u16 + c as u16 * b as u16;
    let quotient = (x * reciprocal(q)) >> 8;
    (x - quotient * q as u16) as u8
}

// A polynomial is its own negative.
pub fn negate(q: u64, a: u8) -> u8
    requires { T (is_field_size q) × (a < q) }
    ensures { result ≡ negative q a }
{
    if q % 4 == 0 {
        return a;
    }
    if a == 0 {
        return 0;
    }
    q as u8 - a
}

// Inverses, a part of eight for each field size. The compiler makes a read-only table of the `match`.
fn inverse_at(at: u64) -> u8
    ensures { result ≡ get_or inverses at 0 }
{
    match at {
        1 => 1, // of 1 modulo 2
        9 => 1, // of 1 modulo 3
        10 => 2, // of 2 modulo 3
        17 => 1, // of 1 in four
        18 => 3, // of t in four
        19 => 2, // of t + 1 in four
        25 => 1, // of 1 modulo 5
        26 => 3, // of 2 modulo 5
        27 => 2, // of 3 modulo 5
        28 => 4, // of 4 modulo 5
        33 => 1, // of 1 modulo 7
        34 => 4, // of 2 modulo 7
        35 => 5, // of 3 modulo 7
        36 => 2, // of 4 modulo 7
        37 => 3, // of 5 modulo 7
        38 => 6, // of 6 modulo 7
        41 => 1, // of 1 in eight
        42 => 5, // of t in eight
        43 => 6, // of t + 1 in eight
        44 => 7, // of t^2 in eight
        45 => 2, // of t^2 + 1 in eight
        46 => 3, // of t^2 + t in eight
        47 => 4, // of t^2 + t + 1 in eight
        _ => 0,
    }
}

pub fn invert(q: u64, a: u8) -> u8
    requires { T (is_field_size q) × (a < q) }
    ensures { result ≡ inverse q a }
{
    inverse_at(position(q) as u64 * 8 + a as u64)
}
