use values::hint_set::HintSet;

/// Where a page is, with the number and the hint set of its latest request: `Place` of the rules
/// with a hint set in place of its numbers, which only rows in lent memory hold.
#[derive(Clone, Copy)]
pub enum PagePlace {
    Cached(u32, HintSet),
    Queued(u32, HintSet),
    Unknown,
}
