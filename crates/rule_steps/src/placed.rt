//! Facts with their places.

/// A subsumption, `Sub(low, high)`, at a place.
#[derive(Clone, Copy, Debug)]
pub struct PlacedSub {
    pub place: usize,
    pub low: u32,
    pub high: u32,
}

/// A link, `Link(from, role, into)`, at a place.
#[derive(Clone, Copy, Debug)]
pub struct PlacedLink {
    pub place: usize,
    pub from: u32,
    pub role: u32,
    pub into: u32,
}
