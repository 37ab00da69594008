use counting::row::Row;
use rules::entry::Entry;
use values::hint_numbers::HintNumbers;

/// The memory that a server is opened over: 256 bytes and a row for each cache place, a row for
/// each queue place, two for each hint row, since the closed ones stay, and one for each page row. All
/// of it is lent, since a server has no heap.
#[derive(Drop)]
pub struct Memory<'a> {
    pub pages: &'a mut [u8],
    pub cache_rows: &'a mut [Entry],
    pub queue_rows: &'a mut [Entry],
    pub live_rows: &'a mut [Row<HintNumbers>],
    pub closed_rows: &'a mut [Row<HintNumbers>],
    pub page_rows: &'a mut [Row<u32>],
}
