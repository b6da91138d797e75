// The sizes and values that are asked about.
use std::alloc::{AllocError, Global};

// Numbers that no size and no value is, some of them one when they are cut to fewer bits.
static FAR: [u32; 14] = [
    67,
    127,
    128,
    130,
    255,
    256,
    258,
    1000,
    65_535,
    65_538,
    2_147_483_647,
    2_147_483_648,
    2_147_483_651,
    4_294_967_295,
];

// The numbers from 0 to a last one, and the far ones.
fn up_to(heap: Global, last: u32) -> Result<Vec<u32>, AllocError> {
    (0..=last).chain(FAR.iter().copied()).collect(heap)
}

// Every size from 0 to 66, and some large ones.
pub fn sizes(heap: Global) -> Result<Vec<u32>, AllocError> {
    up_to(heap, 66)
}

// The values from 0 to one more than the size, or than 66 where that is large, and some large ones.
pub fn values(heap: Global, size: u32) -> Result<Vec<u32>, AllocError> {
    up_to(heap, size.min(66).saturating_add(1))
}
