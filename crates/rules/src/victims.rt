//! Which cached page gives way.
ghost use Rattle.rules.specs.Victims.{GivesWay, Victims};

/// Cached pages give way in a total order, which tells any two with different numbers apart.
#[tactic(auto, using(crate::proofs::Orders::gives_way_total))]
pub fn pages_give_way_in_a_total_order()
    ensures { GivesWay }
{}

/// The victim is the least of that order: its hint set has the least priority, and its number
/// is the lowest among equals. It gives way only to a greater priority.
pub fn the_victim_is_the_least()
    ensures { Victims }
{}
