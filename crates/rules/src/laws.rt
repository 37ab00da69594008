//! The laws of every history of a new open server, of any lawful sizes, above any lawful store.
//! Each stands on the contract of a function that does nothing else.
ghost use Rattle.rules.specs.Bounds.{Bounds};
ghost use Rattle.rules.specs.Laws.{Conservation, Counting, Distance, Every, Freshness, LawfulHistory, Numbering, OnePlace, Undisturbed};

/// Accepted requests have the numbers 1, 2, 3 and so on, and a write reports no distance.
#[tactic(auto, using(crate::proofs::Numberings::numbering))]
pub fn requests_are_numbered_in_order()
    ensures { Every Numbering }
{}

/// The live hint rows and the page rows count the open window: no row counts too little, and
/// none too much by more than its error; errors and unlisted keys are few.
#[tactic(auto, using(crate::proofs::Counts::counting_holds))]
pub fn rows_count_the_open_window()
    ensures { Every Counting }
{}

/// A read reports the exact distance to its page's latest request, at most 65,535, or nothing;
/// never nothing where the queue is as long as the distance.
#[tactic(auto, using(crate::proofs::Distances::distance))]
pub fn reads_report_their_distance()
    ensures { Every Distance }
{}

/// The cache places and the queue entries that hold a page are together at most one.
#[tactic(auto, using(crate::proofs::Distances::one_place))]
pub fn each_page_has_one_place()
    ensures { Every OnePlace }
{}

/// Hits and store reads together are the accepted reads.
#[tactic(auto, using(crate::proofs::Conservations::conservation))]
pub fn hits_and_store_reads_are_the_reads()
    ensures { Every Conservation }
{}

/// An accepted read, and a peek that says yes, get the bytes of the page's latest accepted
/// write, or else the store's first bytes; and the store holds these bytes of every page.
#[tactic(auto, using(crate::proofs::Freshnesses::freshness))]
pub fn reads_get_the_latest_bytes()
    ensures { Every Freshness }
{}

/// The accepted requests alone lead to the same server and store: refused calls, peeks and
/// looks change nothing.
#[tactic(auto, using(crate::proofs::Everything::undisturbed))]
pub fn refusals_and_looks_change_nothing()
    ensures { Every Undisturbed }
{}

/// All of these laws together, and that the server keeps its sizes and stays open.
pub fn every_history_is_lawful()
    ensures { Every LawfulHistory }
{}

/// Places, numbers and rows stay within the bounds that keep every sum and product from
/// wrapping; no two cached pages have the same number; and each closed row gives exactly its
/// priority.
#[tactic(auto, using(crate::proofs::Bounds::bounds))]
pub fn numbers_stay_within_bounds()
    ensures { Every Bounds }
{}
