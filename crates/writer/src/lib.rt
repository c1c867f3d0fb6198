// The line writer: it keeps the lent buffer, and how far that is filled; there is no heap for a `String`. A piece that does not fit leaves
// both unchanged, and the answer says so. Each method is thin: the work is done by the functions over a buffer and a place.
#![tactic(auto)]

ghost use Rattle.std.specs.Prelude.{◌≡◌, [], ◌∷◌, ◌<◌};
ghost use Rattle.text.specs.Text.{comma as comma_byte, slash as slash_byte, line_feed, glyph, numeral};
ghost use Rattle.rows_text.specs.Rows.{DigitRows, rows_text};
ghost use Rattle.writer.specs.Writer.{Wrote};

use rows_text::Rows;
use text::append;

// The bytes of the comma and the line feed.
const COMMA: u8 = b',';

const LINE_FEED: u8 = b'\n';

#[derive(Drop)]
pub struct Writer<'a> {
    pub buffer: &'a mut [u8],
    pub at: usize,
}

impl<'a> Writer<'a> {
    // A writer of an empty line.
    pub fn new(buffer: &'a mut [u8]) -> Writer<'a>
        ensures { (result.buffer ≡ buffer.entry) × (result.at ≡ 0) }
    {
        Writer { buffer, at: 0 }
    }

    // Puts a word or other bytes in.
    pub fn word(&mut self, piece: &[u8]) -> bool
        ensures { Wrote self.old piece.now result self.new }
    {
        let filled = append::append(self.buffer, self.at, piece);
        self.at = filled.unwrap_or(self.at);
        filled.is_some()
    }

    // Puts one byte in.
    fn byte(&mut self, byte: u8) -> bool
        ensures { Wrote self.old (byte ∷ []) result self.new }
    {
        self.word(&[byte])
    }

    // Puts a decimal digit in.
    pub fn digit(&mut self, d: u8) -> bool
        requires { d < 10 }
        ensures { Wrote self.old (glyph d ∷ []) result self.new }
    {
        self.byte(append::ZERO + d)
    }

    // Puts a comma in.
    pub fn comma(&mut self) -> bool
        ensures { Wrote self.old (comma_byte ∷ []) result self.new }
    {
        self.byte(COMMA)
    }

    // Puts a slash in.
    pub fn slash(&mut self) -> bool
        ensures { Wrote self.old (slash_byte ∷ []) result self.new }
    {
        self.byte(rows_text::SLASH)
    }

    // Puts a line feed in.
    pub fn line_feed(&mut self) -> bool
        ensures { Wrote self.old (line_feed ∷ []) result self.new }
    {
        self.byte(LINE_FEED)
    }

    // Puts a number in, in decimal digits.
    pub fn number(&mut self, x: u64) -> bool
        ensures { Wrote self.old (numeral x) result self.new }
    {
        let filled = append::append_number(self.buffer, self.at, x);
        self.at = filled.unwrap_or(self.at);
        filled.is_some()
    }

    // Puts the text of rows in.
    pub fn rows(&mut self, rows: Rows) -> bool
        requires { DigitRows rows.n rows.k rows.entries.now }
        ensures { Wrote self.old (rows_text rows.entry.n rows.entry.k rows.entry.entries.now) result self.new }
    {
        let filled = rows_text::append_rows(self.buffer, self.at, rows);
        self.at = filled.unwrap_or(self.at);
        filled.is_some()
    }
}
