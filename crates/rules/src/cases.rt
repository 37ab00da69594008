//! Worked cases of the rules, each on the contract of a function that does nothing else.
ghost use Rattle.rules.specs.Histories.{Performs};
ghost use Rattle.rules.specs.Sample.{LawfulSample, Sample};
ghost use Rattle.rules.specs.Cases.{CreditFirst, EqualPriority, FarRepeat, FullQueue, Looking, RefusalOrder, ReplacedRow, WriteCredits, WrittenCopy};

/// Every list of calls, from any server and store, makes a history: none is left out.
#[tactic(auto, using(crate::proofs::Performs::performs))]
pub fn any_calls_make_a_history()
    ensures { Performs }
{}

/// Eight requests: their answers and bytes, the tally, and the priorities after each window.
#[tactic(auto, using(crate::proofs::Samples::sample))]
pub fn the_sample_goes_as_told()
    ensures { Sample }
{}

/// The laws apply to the sample.
#[tactic(auto, using(crate::proofs::Performs::lawful_sample))]
pub fn the_sample_is_lawful()
    ensures { LawfulSample }
{}

/// Refusals 2, 3 and 4 come in this order, and before those of the store.
#[tactic(auto, using(crate::proofs::Samples::refusal_order))]
pub fn refusals_come_in_order()
    ensures { RefusalOrder }
{}

/// A write to a page seen before credits nothing and reports nothing.
#[tactic(auto, using(crate::proofs::Samples::write_credits))]
pub fn a_write_credits_nothing()
    ensures { WriteCredits }
{}

/// A repeat is credited before the request is counted.
#[tactic(auto, using(crate::proofs::Samples::credit_first))]
pub fn a_repeat_is_credited_first()
    ensures { CreditFirst }
{}

/// The priority of a hint set whose row replaced another goes by count less error.
#[tactic(auto, using(crate::proofs::Samples::replaced))]
pub fn a_replaced_row_counts_its_own()
    ensures { ReplacedRow }
{}

/// Of two cached pages with equal priority the one with the lower number gives way.
#[tactic(auto, using(crate::proofs::Samples::equal_priority))]
pub fn the_lower_number_gives_way()
    ensures { EqualPriority }
{}

/// A full queue drops the entry that entered earliest.
#[tactic(auto, using(crate::proofs::Samples::full_queue))]
pub fn a_full_queue_drops_its_earliest()
    ensures { FullQueue }
{}

/// A write to a cached page changes its copy.
#[tactic(auto, using(crate::proofs::Samples::written_copy))]
pub fn a_write_changes_the_cached_copy()
    ensures { WrittenCopy }
{}

/// A distance is reported up to 65,535.
#[tactic(auto, using(crate::proofs::Samples::far_repeat))]
pub fn a_far_repeat_reports_the_limit()
    ensures { FarRepeat }
{}

/// What peeks and looks answer, of an open server and of a shut one.
#[tactic(auto, using(crate::proofs::Samples::looking))]
pub fn looks_see_the_state()
    ensures { Looking }
{}
