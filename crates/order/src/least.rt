ghost use Rattle.std.specs.Prelude.{◌≡◌, ◌<◌, List, length, IfSome, MatchOption, Some};
ghost use Rattle.std.specs.Fn.{ComputesKey};
ghost use Rattle.std.specs.List.{HoldsAt};
ghost use Rattle.std.specs.Ordering.{is_lt};
ghost use Rattle.order.specs.Least.{FirstLeast, least, least_in, less_by, lesser};

use crate::Order;

/// A run of things with ranks. A rank may be held by the thing or be looked up elsewhere.
pub trait Ranked<R> {
    ghost ranked: { Self → List R };

    fn many(&self) -> usize
        ensures { result ≡ length (ranked self.now) };

    fn rank(&self, place: usize) -> R
        requires { place < length (ranked self.now) }
        ensures { HoldsAt (λ x. result ≡ x) (ranked self.now) place };
}

/// The lesser of two ranks with their places. The earlier one stays unless the later one
/// comes before it.
fn lesser<R: Order + Copy>(earlier: (usize, R), later: (usize, R)) -> (usize, R)
    ensures { result ≡ lesser R.before earlier later }
{
    if later.1.precedes(&earlier.1) {
        later
    } else {
        earlier
    }
}

/// The place of the least of a run that is not empty.
fn least_of_some<R: Order + Copy, S: Ranked<R>>(run: &S) -> usize
    requires { 0 < length (S.ranked run.now) }
    ensures value { result ≡ least R.before (S.ranked run.now) }
    ensures first { FirstLeast R.before (S.ranked run.now) result }
{
    let mut least = (0, run.rank(0));
    // by place, since a run tells its ranks by place
    for place in 1..run.many() {
        least = lesser(least, (place, run.rank(place)));
    }
    least.0
}

/// The place of the least of a run, the first among equals; an empty run has none.
pub fn least_place<R: Order + Copy, S: Ranked<R>>(run: &S) -> Option<usize>
    ensures within { MatchOption result (length (S.ranked run.now) ≡ 0) (λ place. place < length (S.ranked run.now)) }
    ensures value { result ≡ least_in R.before (S.ranked run.now) }
    ensures first { IfSome result (λ place. FirstLeast R.before (S.ranked run.now) place) }
    ensures some { 0 < length (S.ranked run.now) → result ≡ Some (least R.before (S.ranked run.now)) }
{
    if run.many() == 0 {
        return None;
    }
    Some(least_of_some(run))
}

/// The place of the thing whose rank is the least, the first among equals; of no things there
/// is none. It is `least_place` of a slice whose ranks a closure gives in std's order.
pub fn least_by<T, R: Ord, F: Fn(&T) -> R>(things: &[T], rank: F) -> Option<usize>
where
    R: Drop,
    requires { F.IsAlwaysCallable rank }
    ensures within { MatchOption result (length things.now ≡ 0) (λ place. place < length things.now) }
    ensures value { (key : T → R) → ComputesKey F.FnMut key rank → result ≡ least_in (less_by R.cmp key) things.now }
    ensures first { (key : T → R) → ComputesKey F.FnMut key rank → IfSome result (λ place. FirstLeast (less_by R.cmp key) things.now place) }
    ensures some { (key : T → R) → ComputesKey F.FnMut key rank → 0 < length things.now → result ≡ Some (least (less_by R.cmp key) things.now) }
{
    things
        .iter()
        .enumerate()
        .min_by_key(|(_, thing)| rank(thing))
        .map(|(place, _)| place)
}
