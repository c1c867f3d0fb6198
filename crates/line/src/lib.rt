// The lines, each put together by a line writer. From a buffer to a writer and back: the contracts say nothing of a writer.
#![tactic(auto)]

ghost use Rattle.std.specs.Prelude.{[], ◌∷◌};
ghost use Rattle.text.specs.Text.{line_feed, numeral};
ghost use Rattle.text.specs.Piece.{Composed};
ghost use Rattle.rows_text.specs.Rows.{DigitRows, rows_text};
ghost use Rattle.line.specs.Line.{line_pieces};

use extended::ExtendedIndex;
use ferrers::FerrersIndex;
use rows_text::Rows;
use writer::Writer;

// Puts the line of a space together: its extended index, its Ferrers index and its rows. Answers how far the buffer is filled.
pub fn put_space(
    buffer: &mut [u8],
    extended: ExtendedIndex,
    ferrers: FerrersIndex,
    rows: Rows,
) -> usize
    requires { DigitRows rows.n rows.k rows.entries.now }
    ensures { Composed buffer.old
        (line_pieces extended.0 ferrers.0 (rows_text rows.entry.n rows.entry.k rows.entry.entries.now))
        result buffer.new }
{
    let mut w = Writer::new(buffer);
    w.number(extended.0);
    w.comma();
    w.number(ferrers.0);
    w.comma();
    w.rows(rows);
    w.line_feed();
    w.at
}

// Puts a line of one word together.
pub fn put_word(buffer: &mut [u8], word: &[u8]) -> usize
    ensures { Composed buffer.old (word.now ∷ (line_feed ∷ []) ∷ []) result buffer.new }
{
    let mut w = Writer::new(buffer);
    w.word(word);
    w.line_feed();
    w.at
}

// Puts a line of a word and a number behind it together.
pub fn put_numbered(buffer: &mut [u8], word: &[u8], number: u64) -> usize
    ensures { Composed buffer.old (word.now ∷ numeral number ∷ (line_feed ∷ []) ∷ []) result buffer.new }
{
    let mut w = Writer::new(buffer);
    w.word(word);
    w.number(number);
    w.line_feed();
    w.at
}
