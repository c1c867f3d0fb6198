// Flat shims for the receiver's calls: the receiver passes as its image, field by field.
use crate::Answer;
use numbering::Index;
use pool::{Dimensions, Pooled};
use receive::Unreceived;
use receiver::{Effect, Receiver, Taken};
use reduce::Space;

#[repr(C)]
#[derive(Clone, Copy)]
pub struct Image {
    pub entries: [u8; 256],
    pub q: u64,
    pub n: u64,
    pub k: u64,
    pub dimension: u64,
    pub pack: u64,
}

// What Start and Take leave: the receiver, the refusal or 0, 1 where the dimension grew, and 1 where the row was idle.
#[repr(C)]
#[derive(Clone, Copy)]
pub struct Step {
    pub image: Image,
    pub refusal: u32,
    pub raised: u32,
    pub idle: u32,
}

impl From<Receiver> for Image {
    fn from(receiver: Receiver) -> Image {
        let entries = receiver.entries;
        Image {
            entries,
            q: receiver.q,
            n: receiver.n,
            k: receiver.k,
            dimension: receiver.dimension,
            pack: receiver.pack.into(),
        }
    }
}

// A pack number: the low 16 bits of a larger one.
fn pack_of(pack: u64) -> u16 {
    (pack % 65536) as u16
}

impl From<Image> for Receiver {
    fn from(image: Image) -> Receiver {
        let entries = image.entries;
        Receiver {
            entries,
            q: image.q,
            n: image.n,
            k: image.k,
            dimension: image.dimension,
            pack: pack_of(image.pack),
        }
    }
}

#[unsafe(no_mangle)]
pub extern "C" fn harness_start(q: u64, n: u64, k: u64, pack: u64) -> Step {
    let started = receiver::start(q, n, k, pack_of(pack));
    Step {
        image: started.receiver.into(),
        refusal: refusal::number_of(started.answer),
        raised: 0,
        idle: 0,
    }
}

impl From<Taken> for Step {
    fn from(taken: Taken) -> Step {
        let (refusal, raised, idle) = match taken.answer {
            Ok(Effect::Raised) => (0, 1, 0),
            Ok(Effect::Held) => (0, 0, 0),
            Ok(Effect::Idle) => (0, 0, 1),
            Err(refusal) => (refusal.into(), 0, 0),
        };
        Step {
            image: taken.receiver.into(),
            refusal,
            raised,
            idle,
        }
    }
}

#[unsafe(no_mangle)]
pub extern "C" fn harness_take(image: Image, pack: u64, row: &[u8]) -> Step {
    Receiver::from(image).take(pack_of(pack), row).into()
}

#[unsafe(no_mangle)]
pub extern "C" fn harness_take_lent(image: Image, pack: u64, row: &[u8]) -> Step {
    clients::taken_lent(image.into(), pack_of(pack), row).into()
}

// What Receive and Close answer; done, the index and the vector, and no dimension.
fn received(answer: Result<(Index, Space), Unreceived>) -> Answer {
    match answer {
        Ok((index, space)) => Answer {
            refusal: 0,
            value: index.into(),
            dimension: 0,
            vector: space.vector.into(),
        },
        Err(Unreceived::Refused(refusal)) => crate::number(Err(refusal)),
        Err(unreceived @ (Unreceived::TooFew(space) | Unreceived::TooMany(space))) => {
            crate::spanned(unreceived.into(), space)
        }
    }
}

#[unsafe(no_mangle)]
pub extern "C" fn harness_close(image: Image, numbering: u64) -> Answer {
    received(Receiver::from(image).close(numbering))
}

#[unsafe(no_mangle)]
pub extern "C" fn harness_receive(
    q: u64,
    n: u64,
    k: u64,
    numbering: u64,
    row_count: u64,
    rows: &[u8],
) -> Answer {
    received(receive::receive(q, n, k, numbering, row_count, rows))
}

// What Pool leaves: the pooled receiver, the refusal or 0, and the dimensions of the joint and of the common space.
#[repr(C)]
#[derive(Clone, Copy)]
pub struct PooledImage {
    pub image: Image,
    pub refusal: u32,
    pub joint_dimension: u64,
    pub common_dimension: u64,
}

impl From<Pooled> for PooledImage {
    fn from(pooled: Pooled) -> PooledImage {
        let none = Dimensions {
            joint: 0,
            common: 0,
        };
        let (refusal, dimensions) = match pooled.answer {
            Ok(dimensions) => (0, dimensions),
            Err(refusal) => (refusal.into(), none),
        };
        PooledImage {
            image: pooled.receiver.into(),
            refusal,
            joint_dimension: dimensions.joint,
            common_dimension: dimensions.common,
        }
    }
}

#[unsafe(no_mangle)]
pub extern "C" fn harness_pool(
    a: Image,
    b: Image,
    joint: &mut [u8],
    common: &mut [u8],
) -> PooledImage {
    pool::pool(a.into(), b.into(), joint, common).into()
}
