// The listing of all spaces of some settings, written chunk by chunk.
#![tactic(auto)]

mod write;

ghost use Rattle.std.specs.Prelude.{◌≡◌, ◌≤◌, length};
ghost use Rattle.listing.specs.Steps.{chunk_size, lines_end, begun, lines_chunk, lines_next, chunk_of, next_state};
ghost use Rattle.listing.specs.Front.{written};

use extended::ExtendedIndex;
use refusal::Refusal;
use settings_line::Settings;

// A listing in progress: its settings, and the extended index of the next line.
#[derive(Clone, Copy)]
pub struct Progress {
    pub settings: Settings,
    pub index: ExtendedIndex,
}

// What is still to be written. A refusal by its number, since `step` takes a state with any.
#[derive(Clone, Copy)]
pub enum State {
    Header(Settings),
    Lines(Progress),
    Refused(u32),
    Done,
}

// The lines of a chunk, and the bytes that a chunk is lent: 320 for each line.
const CHUNK_LINES: u64 = 64;

pub const CHUNK_SIZE: usize = 20480;

// So many steps end every listing: the header, 1,024 chunks of lines, and the empty chunk that ends it.
pub const MOST_STEPS: u64 = 1026;

// The state in which the program begins, by its input. The first 13 bytes decide.
pub fn begin(input: &[u8]) -> State
    ensures { result ≡ begun input.now }
{
    let Some(settings) = settings_line::parse(input) else {
        return State::Refused(Refusal::Line.into());
    };
    match settings::check_listing(settings.q, settings.n, settings.k) {
        Ok(()) => State::Header(settings),
        Err(refusal) => State::Refused(refusal.into()),
    }
}

// The index up to which the next chunk lists.
fn lines_end(count: u64, index: ExtendedIndex) -> ExtendedIndex
    requires { index.0 ≤ count }
    ensures { result.0 ≡ lines_end count index.0 }
{
    ExtendedIndex(index.0 + CHUNK_LINES.min(count - index.0))
}

// What a step answers: the state after it, and how many bytes of the chunk it wrote.
#[derive(Clone, Copy)]
pub struct Stepped {
    pub state: State,
    pub size: usize,
}

// A step among the lines.
fn lines_step(progress: Progress, chunk: &mut [u8]) -> Stepped
    requires { length chunk.old ≡ chunk_size }
    ensures { (result.state ≡ lines_next progress) × (result.size ≡ length (lines_chunk progress))
        × (chunk.new ≡ written (lines_chunk progress) chunk.old) }
{
    let Progress { settings, index } = progress;
    let Settings { q, n, k } = settings;
    let Ok(()) = settings::check_listing(q, n, k) else {
        return Stepped {
            state: State::Done,
            size: 0,
        };
    };
    let count = counts::coefficient(q, n, k);
    if count <= index.0 {
        return Stepped {
            state: State::Done,
            size: 0,
        };
    }
    let to = lines_end(count, index);
    let size = write::write_lines(chunk, settings, index, to);
    Stepped {
        state: State::Lines(Progress {
            settings,
            index: to,
        }),
        size,
    }
}

// Writes the next chunk of what is still to be written to the front of the lent one. A size of 0 is the end.
pub fn step(state: State, chunk: &mut [u8; CHUNK_SIZE]) -> Stepped
    ensures { (result.state ≡ next_state state) × (result.size ≡ length (chunk_of state))
        × (chunk.new ≡ written (chunk_of state) chunk.old) }
{
    match state {
        State::Header(settings) => Stepped {
            state: State::Lines(Progress {
                settings,
                index: ExtendedIndex(0),
            }),
            size: write::write_header(chunk),
        },
        State::Lines(progress) => lines_step(progress, chunk),
        State::Refused(number) => Stepped {
            state: State::Done,
            size: write::write_refused(chunk, number),
        },
        State::Done => Stepped {
            state: State::Done,
            size: 0,
        },
    }
}
