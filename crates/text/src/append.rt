// Pieces of text put into a lent buffer that is filled up to some place. Each function answers how far the buffer is filled then; None where
// the piece does not fit, which leaves the buffer as it was.
ghost use Rattle.std.specs.Prelude.{◌≡◌, ◌+◌, ◌≤◌, leb, drop};
ghost use Rattle.text.specs.Text.{numeral};
ghost use Rattle.text.specs.Piece.{Appended};

// The byte of the digit 0.
pub const ZERO: u8 = b'0';

// A u64 has at most so many digits.
const MOST_DIGITS: usize = 20;

// Whether `length` bytes have room from the place `at` on. The place is tested first, so one past the end has no room, and no number wraps.
pub fn has_room(size: usize, at: usize, length: usize) -> bool
    ensures { result ≡ leb (at + length) size }
{
    at <= size && length <= size - at
}

// Puts a piece in at the place `at`.
pub fn append(buffer: &mut [u8], at: usize, piece: &[u8]) -> Option<usize>
    ensures { Appended buffer.old at piece.now result buffer.new }
{
    if !has_room(buffer.len(), at, piece.len()) {
        return None;
    }
    let end = at + piece.len();
    buffer[at..end].copy_from_slice(piece);
    Some(end)
}

// Writes the digits of x to the array's end, the last first, and answers where they begin. By hand: std's `{x}` writes part by part, where a
// piece that does not fit is to leave the buffer as it was; and a `for` over the places would end in a return that is never reached.
fn write_digits(digits: &mut [u8; MOST_DIGITS], x: u64) -> usize
    ensures { (result ≤ 20) × (drop result digits.new ≡ numeral x) }
{
    let mut start = MOST_DIGITS;
    let mut rest = x;
    while rest >= 10 {
        start -= 1;
        digits[start] = ZERO + (rest % 10) as u8;
        rest /= 10;
    }
    start -= 1;
    digits[start] = ZERO + rest as u8;
    start
}

// Puts a number in, in decimal digits.
pub fn append_number(buffer: &mut [u8], at: usize, x: u64) -> Option<usize>
    ensures { Appended buffer.old at (numeral x) result buffer.new }
{
    let mut digits = [0; MOST_DIGITS];
    let start = write_digits(&mut digits, x);
    append(buffer, at, &digits[start..])
}
