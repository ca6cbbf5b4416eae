//! Where in a header its lines lead.

/// Where in a header the lines so far lead.
#[derive(Clone, Copy, Debug, PartialEq, Eq)]
pub enum MapPlace {
    /// No map has begun.
    Before,
    /// In a map whose first line has the indentation `map`, after entries with the indentation
    /// `entries`, if there are any.
    Inside { map: usize, entries: Option<usize> },
    /// After the map.
    Past,
}
