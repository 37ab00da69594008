use crate::entry::Place;
use priority::priority_parts::PriorityParts;
use values::hint_numbers::HintNumbers;

/// A question that changes nothing.
#[derive(Clone, Copy)]
pub enum Look {
    HintCount(HintNumbers),
    PageCount(u32),
    PlaceOf(u32),
    PriorityOf(HintNumbers),
    Progress,
    IsOpen,
}

/// What a look sees: a count with its error or none, a place, a priority, the number of the
/// latest request with the window's requests, or whether the server is open.
#[derive(Clone, Copy)]
pub enum Seen {
    Count(Option<(u32, u32)>),
    Place(Place),
    Priority(PriorityParts),
    Numbers(u32, u32),
    Opened(bool),
}
