// Decimal numbers read from a text at a cursor.
ghost use Rattle.std.specs.Prelude.{◌≡◌};
ghost use Rattle.settings_line.specs.Decimal.{read_at, decimal_at, marked_at};

// A number that was read, and the cursor past it.
#[derive(Clone, Copy)]
pub struct Numeral {
    pub value: u64,
    pub end: usize,
}

// The number that the digits from the cursor on make, however many they are; None where it is above 2^64 - 1.
fn read_digits(text: &[u8], at: usize) -> Option<Numeral>
    ensures { result ≡ read_at text.now at }
{
    let mut value: u64 = 0;
    for i in at..text.len() {
        if !text[i].is_ascii_digit() {
            return Some(Numeral { value, end: i });
        }
        let digit = u64::from(text[i] - b'0');
        value = value.checked_mul(10)?.checked_add(digit)?;
    }
    Some(Numeral {
        value,
        end: at.max(text.len()),
    })
}

// The number of 1 to `most` digits at the cursor, up to the first byte that is no digit. None where there is no digit or more than `most`,
// where a needless 0 leads, and where the number is above 2^64 - 1.
pub fn read_decimal(text: &[u8], at: usize, most: usize) -> Option<Numeral>
    ensures { result ≡ decimal_at text.now at most }
{
    let numeral = read_digits(text, at)?;
    let end = numeral.end;
    if end <= at {
        return None;
    }
    if most < end - at {
        return None;
    }
    if end - at == 1 {
        return Some(numeral);
    }
    if text[at] == b'0' {
        return None;
    }
    Some(numeral)
}

// The same number, where the byte `mark` follows it; the cursor is then past the mark.
#[tactic(auto, unfolding(crate::specs::Decimal::marked_at))]
pub fn read_marked(text: &[u8], at: usize, most: usize, mark: u8) -> Option<Numeral>
    ensures { result ≡ marked_at text.now at most mark }
{
    let numeral = read_decimal(text, at, most)?;
    let end = numeral.end;
    let byte = *text.get(end)?;
    if byte != mark {
        return None;
    }
    Some(Numeral {
        value: numeral.value,
        end: end + 1,
    })
}
