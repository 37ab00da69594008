/// The plain numbers of a server's sizes, lawful or not.
#[derive(Clone, Copy, PartialEq, Eq, Debug)]
pub struct SizeNumbers {
    pub cache_places: u32,
    pub queue_places: u32,
    pub hint_rows: u32,
    pub page_rows: u32,
    pub window: u32,
}
