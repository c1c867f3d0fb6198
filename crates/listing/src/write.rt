// The lines of the listing, each written to the front of a buffer that has room for it.
ghost use Rattle.std.specs.Prelude.{◌≡◌, ◌-◌, ◌≤◌, ◌<◌, length};
ghost use Rattle.counts.specs.Gaussian.{gaussian};
ghost use Rattle.settings.specs.Laws.Listable.{Listable};
ghost use Rattle.listing.specs.Front.{written};
ghost use Rattle.listing.specs.Line.{line_room};
ghost use Rattle.listing.specs.Listing.{header, refused_line, listing_line, lines_from};
ghost use Rattle.listing.specs.Steps.{chunk_lines, chunk_size};

use extended::ExtendedIndex;
use numbering::Numbering;
use rows_text::Rows;
use settings_line::Settings;

// The bytes that the line writer is lent for a line.
const LINE_ROOM: usize = 320;

// Writes the header.
pub(crate) fn write_header(buffer: &mut [u8]) -> usize
    requires { line_room ≤ length buffer.old }
    ensures { (result ≡ length header) × (buffer.new ≡ written header buffer.old) }
{
    line::put_word(&mut buffer[..LINE_ROOM], b"extended,ferrers,rows")
}

// Writes the line of a refusal.
pub(crate) fn write_refused(buffer: &mut [u8], refusal: u32) -> usize
    requires { line_room ≤ length buffer.old }
    ensures { (result ≡ length (refused_line refusal)) × (buffer.new ≡ written (refused_line refusal) buffer.old) }
{
    line::put_numbered(&mut buffer[..LINE_ROOM], b"refused,", u64::from(refusal))
}

// Writes the line of the space with the given extended index.
fn write_space(buffer: &mut [u8], settings: Settings, index: ExtendedIndex) -> usize
    requires { Listable settings.q settings.n settings.k × (index.0 < gaussian settings.q settings.n settings.k)
        × (length buffer.old ≡ line_room) }
    ensures { let line = listing_line settings.q settings.n settings.k index.0 in
        (result ≡ length line) × (buffer.new ≡ written line buffer.old) }
{
    let q = settings.q;
    let n = settings.n as usize;
    let k = settings.k as usize;
    let mut entries = [0u8; 256];
    let matrix = &mut entries[..k * n];
    let found = Numbering::Extended.unrank_indexes(matrix, q, n, k, index.0);
    let rows = Rows {
        entries: matrix,
        n,
        k,
    };
    line::put_space(buffer, index, found.ferrers, rows)
}

// Writes the lines of the extended indexes from `from` up to `to`, as many as a chunk has. Each line is lent its 320 bytes.
pub(crate) fn write_lines(
    buffer: &mut [u8],
    settings: Settings,
    from: ExtendedIndex,
    to: ExtendedIndex,
) -> usize
    requires { Listable settings.q settings.n settings.k × (from.0 ≤ to.0)
        × (to.0 ≤ gaussian settings.q settings.n settings.k) × (to.0 - from.0 ≤ chunk_lines)
        × (chunk_size ≤ length buffer.old) }
    ensures { let lines = lines_from settings.q settings.n settings.k from.0 (to.0 - from.0) in
        (result ≡ length lines) × (buffer.new ≡ written lines buffer.old) }
{
    let mut at = 0;
    for index in from.0..to.0 {
        let end = at + LINE_ROOM;
        at += write_space(&mut buffer[at..end], settings, ExtendedIndex(index));
    }
    at
}
