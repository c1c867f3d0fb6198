// The list program: reads the settings line, and writes the listing or the refusal. Of the input only the first bytes are read, which
// decide whether it is a settings line. A read that fails is the input's end. A write that fails ends the program, which says so on
// standard error.
#![tactic(auto)]

ghost use Rattle.std.specs.Prelude.{◌≡◌, ◌≤◌, length, MatchResult};
ghost use Rattle.listing.specs.declared.State.TheVariants.{Done};
ghost use Rattle.listing.specs.Listing.{listing_output};
ghost use Rattle.listing.specs.Steps.{begun, state_after, chunks};

use listing::State;
use std::io::Read;

// How far a listing came: the state after so many steps.
#[derive(Clone, Copy)]
struct Ended {
    state: State,
    steps: u64,
}

// Writes chunk after chunk until one is empty, or one is not written, which is an error.
fn write_listing(out: &impl Print, begin: State) -> Result<Ended, Ended>
    ensures { MatchResult result (λ e. (e.state ≡ state_after e.steps begin) × (e.state ≡ Done))
        (λ e. e.state ≡ state_after e.steps begin) }
{
    let mut state = begin;
    let mut chunk = [0u8; listing::CHUNK_SIZE];
    for steps in 0..listing::MOST_STEPS {
        let stepped = listing::step(state, &mut chunk);
        let size = stepped.size;
        state = stepped.state;
        let ended = Ended {
            state,
            steps: steps + 1,
        };
        if size == 0 {
            return Ok(ended);
        }
        out.write_all(&chunk[..size]).map_err(|_| ended)?;
    }
    Ok(Ended {
        state,
        steps: listing::MOST_STEPS,
    })
}

// Lists for an input. Where every chunk was written, the chunks are the output.
fn list(out: &impl Print, input: &[u8]) -> Result<Ended, Ended>
    ensures { let begin = begun input.now in
        MatchResult result
        (λ e. (e.state ≡ state_after e.steps begin) × (chunks e.steps begin ≡ listing_output input.now))
        (λ e. e.state ≡ state_after e.steps begin) }
{
    write_listing(out, listing::begin(input))
}

// Reads until the buffer is full, the input ends or a read fails. Answers how many bytes it put at the buffer's start. By hand: std's
// `read_exact` does not say how many it read where the input is shorter.
fn read_full(from: &mut impl Read, buffer: &mut [u8]) -> usize
    ensures { result ≤ length buffer.new }
{
    let mut done = 0;
    while done < buffer.len() {
        match from.read(&mut buffer[done..]) {
            Ok(0) => break,
            Ok(n) => done += n,
            Err(_) => break,
        }
    }
    done
}

fn main(rt: HostRuntime) {
    let mut input = [0u8; settings_line::DECISIVE];
    let size = read_full(&mut rt.stdin(), &mut input);
    if list(&rt, &input[..size]).is_err() {
        let _ = rt.eprintln("list: a write failed, so the listing is not whole");
    }
}
