// The weights of nodes.

/// The weight of the node at a place: a mixed number, which looks like a random one, by the finish of `splitmix64`. Only speed
/// rests on it.
pub(crate) fn weight(place: u32) -> u64 {
    let spread = (place as u64 + 1).wrapping_mul(0x9e37_79b9_7f4a_7c15);
    let once = (spread ^ (spread >> 30)).wrapping_mul(0xbf58_476d_1ce4_e5b9);
    let twice = (once ^ (once >> 27)).wrapping_mul(0x94d0_49bb_1331_11eb);
    twice ^ (twice >> 31)
}
