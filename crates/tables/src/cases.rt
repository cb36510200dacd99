// The versions of the tables that are written, each list in the order of a table.
use crate::version::Version;
use std::alloc::{AllocError, Global};

const KEYS: u32 = 2500;

const ROUNDS: u32 = 4;

static BYTES: [u8; 1024] = [118; 1024];

// The keys of the large table are even numbers, so that these lie between them; no other table has them either.
pub fn other_key(i: u32) -> [u8; 4] {
    i.wrapping_mul(50).wrapping_add(1).to_be_bytes()
}

pub fn empty(heap: Global) -> Vec<Version> {
    Vec::new(heap)
}

pub fn one(heap: Global) -> Result<Vec<Version>, AllocError> {
    Ok(vec![in heap; Version::new(heap, b"gauge", 7, b"3.21")?]?)
}

pub fn largest(heap: Global) -> Result<Vec<Version>, AllocError> {
    Ok(vec![in heap; Version::new(heap, &BYTES[0..255], 7, &BYTES)?]?)
}

// The smallest versions, so that as many as may be are in a block.
pub fn one_key(heap: Global) -> Result<Vec<Version>, AllocError> {
    (0..3000u64)
        .rev()
        .map(|moment| Version::new(heap, b"k", moment, b""))
        .try_collect(heap)
}

// Each key begins the next, so one key grows in a loop.
pub fn beginnings(heap: Global) -> Result<Vec<Version>, AllocError> {
    let mut versions = Vec::new(heap);
    let mut key = Vec::new(heap);
    for i in 0..40u8 {
        key.push(97 + i)?;
        versions.push(Version::new(heap, key.as_slice(), u64::from(i), &BYTES[0..100])?)?;
    }
    Ok(versions)
}

// A key as long as may be, with this last byte.
fn long_key(last: u8) -> [u8; 255] {
    let mut key = [120u8; 255];
    key[254] = last;
    key
}

// Keys that differ in the last byte.
pub fn last_bytes(heap: Global) -> Result<Vec<Version>, AllocError> {
    (0..200u8)
        .map(|i| Version::new(heap, &long_key(i), u64::from(i), b"value"))
        .try_collect(heap)
}

// The version that a key got in a round, some of them erasures.
fn in_round(heap: Global, key: u32, round: u32) -> Result<Version, AllocError> {
    let name = key.wrapping_mul(2).to_be_bytes();
    let moment = u64::from(round) * u64::from(KEYS) + u64::from(key);
    if moment % 7 == 3 {
        return Version::erasure(heap, &name, moment);
    }
    Version::new(heap, &name, moment, &BYTES[0..(moment % 200) as usize])
}

// Every key is written once a round; in the table its newest version comes first.
pub fn many(heap: Global) -> Result<Vec<Version>, AllocError> {
    (0..KEYS * ROUNDS)
        .map(|i| in_round(heap, i / ROUNDS, ROUNDS - 1 - i % ROUNDS))
        .try_collect(heap)
}
