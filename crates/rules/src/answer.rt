/// What is done with a requested page: a `Choice` without its place, which no caller is told.
#[derive(Clone, Copy, PartialEq, Eq, Debug)]
pub enum Decision {
    Hit,
    Free,
    Evict,
    Pass,
}

/// What an accepted request answers: its number, the decision, the page that gave way and the
/// distance to the page's latest request, if there are such.
#[derive(Clone, Copy, PartialEq, Eq, Debug)]
pub struct Answer {
    pub number: u32,
    pub decision: Decision,
    pub victim: Option<u32>,
    pub distance: Option<u32>,
}
