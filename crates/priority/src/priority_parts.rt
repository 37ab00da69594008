/// The plain parts of a fraction, for handed memory, which may hold anything.
#[derive(Clone, Copy, PartialEq, Eq, Debug)]
pub struct PriorityParts {
    pub numerator: u64,
    pub denominator: u64,
}

impl PriorityParts {
    /// 0 over 1.
    pub(crate) const LOWEST: PriorityParts = PriorityParts {
        numerator: 0,
        denominator: 1,
    };
}
