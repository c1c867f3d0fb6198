// Flat shims for the C tests, over numbers and byte slices, for what only Rattle callers reach. No part of the product.
#![tactic(auto)]

pub mod image;

use numbering::Index;
use reduce::Space;
use refusal::Refusal;

// An answer with document 01's refusal number, index or count, and dimension, and the identifying vector.
#[repr(C)]
#[derive(Clone, Copy)]
pub struct Answer {
    pub refusal: u32,
    pub value: u64,
    pub dimension: u64,
    pub vector: u64,
}

// A number, or the refusal.
fn number(answer: Result<u64, Refusal>) -> Answer {
    let (refusal, value) = match answer {
        Ok(value) => (0, value),
        Err(refusal) => (refusal.into(), 0),
    };
    Answer {
        refusal,
        value,
        dimension: 0,
        vector: 0,
    }
}

// An index, or the refusal.
fn index(answer: Result<Index, Refusal>) -> Answer {
    match answer {
        Ok(index) => number(Ok(index.into())),
        Err(refusal) => number(Err(refusal)),
    }
}

// The refusal, or 0, of an answer that tells of a span.
fn spanned(refusal: u32, space: Space) -> Answer {
    Answer {
        refusal,
        value: 0,
        dimension: space.dimension,
        vector: space.vector.into(),
    }
}

// The table's entry at a place; 0 past its end.
#[unsafe(no_mangle)]
pub extern "C" fn harness_table_entry(place: u64) -> u64 {
    if 1734 <= place {
        return 0;
    }
    let table = counts::all_counts();
    table[place as usize]
}

#[unsafe(no_mangle)]
pub extern "C" fn harness_count(q: u64, n: u64, k: u64) -> Answer {
    number(settings::count(q, n, k))
}

#[unsafe(no_mangle)]
pub extern "C" fn harness_number(q: u64, n: u64, k: u64, numbering: u64, matrix: &[u8]) -> Answer {
    index(number::number(q, n, k, numbering, matrix))
}

#[unsafe(no_mangle)]
pub extern "C" fn harness_convert(
    q: u64,
    n: u64,
    k: u64,
    from: u64,
    to: u64,
    index: u64,
) -> Answer {
    crate::index(convert::convert(q, n, k, from, to, index))
}

#[unsafe(no_mangle)]
pub extern "C" fn harness_reduce(
    q: u64,
    n: u64,
    row_count: u64,
    rows: &[u8],
    output: &mut [u8],
) -> Answer {
    match reduce::reduce(q, n, row_count, rows, output) {
        Ok(space) => spanned(0, space),
        Err(refusal) => number(Err(refusal)),
    }
}

#[unsafe(no_mangle)]
pub extern "C" fn harness_distance(
    q: u64,
    n: u64,
    first_count: u64,
    first: &[u8],
    second_count: u64,
    second: &[u8],
) -> Answer {
    number(distance::distance(q, n, first_count, first, second_count, second))
}
