// Runs document 01's bench examples that are not proved, and prints a line for each; the file stdout holds what they must be.
#![tactic(auto)]

use std::io;

// The settings, and the count or the refusal.
fn count(rt: &impl Print, q: u64, n: u64, k: u64) -> io::Result<()> {
    match settings::count(q, n, k) {
        Ok(count) => println!(rt; "count {q},{n},{k}: {count}"),
        Err(refusal) => println!(rt;
            "count {q},{n},{k}: refused {}",
            refusal::number_of(Err(refusal))
        ),
    }
}

fn main(rt: HostRuntime) -> io::Result<()> {
    count(&rt, 2, 16, 6)?;
    count(&rt, 2, 16, 7)?;
    count(&rt, 6, 6, 3)?;
    count(&rt, 2, 17, 3)?;
    count(&rt, 2, 6, 3)?;
    count(&rt, 3, 4, 2)
}
