use values::hint_numbers::HintNumbers;

/// A page with the number and the hint set of its latest request: an entry of the queue, or
/// the row of a cache place.
#[derive(Clone, Copy, PartialEq, Eq, Debug)]
pub struct Entry {
    pub page: u32,
    pub number: u32,
    pub hints: HintNumbers,
}

/// Where a page is.
#[derive(Clone, Copy, PartialEq, Eq, Debug)]
pub enum Place {
    Cached(Entry),
    Queued(Entry),
    Unknown,
}
