// The rows of a matrix put into a buffer as text.
#![tactic(auto)]

ghost use Rattle.std.specs.Prelude.{◌≡◌, ◌-◌, ◌+◌, ◌*◌, ◌<◌, ◌≤◌, get_or};
ghost use Rattle.text.specs.Piece.{Appended};
ghost use Rattle.rows_text.specs.Rows.{DigitRows, rows_text};

use text::append;

// The byte of the slash.
pub const SLASH: u8 = b'/';

// A matrix: k rows of n entries, row by row. That they are digits is asked in the clauses, since a type would ask it of every value made.
#[derive(Clone, Copy)]
pub struct Rows<'a> {
    pub entries: &'a [u8],
    pub n: usize,
    pub k: usize,
}

impl<'a> Rows<'a> {
    // How many bytes the text of the rows has.
    fn size(self) -> usize
        requires { (self.k ≤ 16) × (self.n ≤ 16) }
        ensures { result ≡ self.entry.k * self.entry.n + (self.entry.k - 1) }
    {
        self.k * self.n + self.k.saturating_sub(1)
    }

    // The byte at a place of the rows' text. A row and the slash after it take n + 1 places.
    fn byte(self, place: usize) -> u8
        requires { DigitRows self.n self.k self.entries.now × (place < self.k * self.n + (self.k - 1)) }
        ensures { result ≡ get_or (rows_text self.entry.n self.entry.k self.entry.entries.now) place 0 }
    {
        let row = place / (self.n + 1);
        let column = place % (self.n + 1);
        if column == self.n {
            return SLASH;
        }
        append::ZERO + self.entries[row * self.n + column]
    }
}

// Puts the text of rows in, digit by digit and slash by slash, where there is room for all of it.
pub fn append_rows(buffer: &mut [u8], at: usize, rows: Rows) -> Option<usize>
    requires { DigitRows rows.n rows.k rows.entries.now }
    ensures { Appended buffer.old at (rows_text rows.entry.n rows.entry.k rows.entry.entries.now) result buffer.new }
{
    let size = rows.size();
    if !append::has_room(buffer.len(), at, size) {
        return None;
    }
    for place in 0..size {
        buffer[at + place] = rows.byte(place);
    }
    Some(at + size)
}
