use store::script::Access;
use values::hint_numbers::HintNumbers;

/// A read or a write of a page with a hint set. Its buffer is handed over beside it.
#[derive(Clone, Copy)]
pub struct Request {
    pub access: Access,
    pub page: u32,
    pub hints: HintNumbers,
}
