mod hints;

/// What an item asks of the server: a write fills the page with its byte.
#[derive(Clone, Copy, PartialEq, Eq, Debug)]
pub enum Call {
    Read,
    Write(u8),
}

/// A request of a trace, with its hint words as a part of the trace.
#[derive(Clone, Copy)]
pub struct Item<'t> {
    pub place: usize,
    pub call: Call,
    pub page: u16,
    pub client: u8,
    pub hints: &'t [u8],
}
