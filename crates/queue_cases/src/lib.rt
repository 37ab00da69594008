//! The worked cases of a queue, run.
#![tactic(auto)]

use queue::enter_all::enter_all;
use queue::ring::Queue;

/// What a row may hold before it is used.
const UNUSED: u32 = 7;

/// The elements at places 0 to 3.
fn told(queue: &Queue<'_, u32>) -> (Option<u32>, Option<u32>, Option<u32>, Option<u32>) {
    (queue.at(0), queue.at(1), queue.at(2), queue.at(3))
}

#[test]
fn a_new_queue_is_empty(rt: HostRuntime) {
    let mut rows = [UNUSED; 3];
    let queue = Queue::new(&mut rows);
    assert_eq!(rt; queue.len(), 0);
    assert_eq!(rt; queue.at(0), None);
}

#[test]
fn elements_stand_in_the_order_of_entering(rt: HostRuntime) {
    let mut rows = [UNUSED; 3];
    let queue = enter_all(&mut rows, &[5, 4]);
    assert_eq!(rt; queue.len(), 2);
    assert_eq!(rt; told(&queue), (Some(5), Some(4), None, None));
}

#[test]
fn a_full_queue_drops_its_earliest(rt: HostRuntime) {
    let mut rows = [UNUSED; 3];
    let queue = enter_all(&mut rows, &[1, 2, 3, 4, 5]);
    assert_eq!(rt; queue.len(), 3);
    assert_eq!(rt; told(&queue), (Some(3), Some(4), Some(5), None));
}

#[test]
fn one_place_holds_the_latest(rt: HostRuntime) {
    let mut rows = [UNUSED; 1];
    let queue = enter_all(&mut rows, &[1, 2]);
    assert_eq!(rt; told(&queue), (Some(2), None, None, None));
}

#[test]
fn no_places_hold_nothing(rt: HostRuntime) {
    let mut rows = [UNUSED; 0];
    let mut queue = enter_all(&mut rows, &[1, 2]);
    queue.remove(0);
    assert_eq!(rt; queue.len(), 0);
}

/// Places 0 to 2 hold 3, 4 and 5, of which 4 and 5 lie in the first rows.
fn removed(place: usize) -> (Option<u32>, Option<u32>, Option<u32>, Option<u32>) {
    let mut rows = [UNUSED; 3];
    let mut queue = enter_all(&mut rows, &[1, 2, 3, 4, 5]);
    queue.remove(place);
    told(&queue)
}

#[test]
fn the_others_keep_their_order(rt: HostRuntime) {
    assert_eq!(rt; removed(0), (Some(4), Some(5), None, None));
    assert_eq!(rt; removed(1), (Some(3), Some(5), None, None));
    assert_eq!(rt; removed(2), (Some(3), Some(4), None, None));
    assert_eq!(rt; removed(3), (Some(3), Some(4), Some(5), None));
}

/// What is left of these in four rows without the one at a place.
fn left_of(items: &[u32], place: usize) -> (Option<u32>, Option<u32>, Option<u32>, Option<u32>) {
    let mut rows = [UNUSED; 4];
    let mut queue = enter_all(&mut rows, items);
    queue.remove(place);
    told(&queue)
}

#[test]
fn the_later_ones_close_up(rt: HostRuntime) {
    let four = [1, 2, 3, 4];
    assert_eq!(rt; left_of(&four, 2), (Some(1), Some(2), Some(4), None));
    assert_eq!(rt; left_of(&four, 3), (Some(1), Some(2), Some(3), None));
    let five = [1, 2, 3, 4, 5];
    assert_eq!(rt; left_of(&five, 1), (Some(2), Some(4), Some(5), None));
    assert_eq!(rt; left_of(&five, 2), (Some(2), Some(3), Some(5), None));
    assert_eq!(rt; left_of(&five, 3), (Some(2), Some(3), Some(4), None));
}

#[test]
fn the_later_ones_close_up_round_the_last_row(rt: HostRuntime) {
    let mut rows = [UNUSED; 8];
    let mut queue = enter_all(&mut rows, &[1, 2, 3, 4, 5, 6, 7, 8, 9, 10]);
    queue.remove(4);
    assert_eq!(rt; told(&queue), (Some(3), Some(4), Some(5), Some(6)));
    assert_eq!(rt; queue.at(4), Some(8));
    assert_eq!(rt; queue.at(5), Some(9));
    assert_eq!(rt; queue.at(6), Some(10));
    assert_eq!(rt; queue.len(), 7);
}

#[test]
fn a_search_finds_the_earliest_that_passes(rt: HostRuntime) {
    let mut rows = [UNUSED; 3];
    let mut queue = enter_all(&mut rows, &[1, 2, 5, 4, 5]);
    assert_eq!(rt; queue.position(|x| *x == 5), Some(0));
    assert_eq!(rt; queue.position(|x| *x < 5), Some(1));
    assert_eq!(rt; queue.position(|x| *x == 2), None);
    queue.remove(0);
    queue.remove(1);
    assert_eq!(rt; queue.position(|x| *x == 5), None);
}

#[test]
fn a_place_that_was_given_up_is_used_again(rt: HostRuntime) {
    let mut rows = [UNUSED; 3];
    let mut queue = enter_all(&mut rows, &[1, 2, 3, 4, 5]);
    queue.remove(1);
    queue.enter(6);
    assert_eq!(rt; told(&queue), (Some(3), Some(5), Some(6), None));
    queue.enter(8);
    assert_eq!(rt; told(&queue), (Some(5), Some(6), Some(8), None));
}

#[test]
fn an_emptied_queue_starts_anew(rt: HostRuntime) {
    let mut rows = [UNUSED; 2];
    let mut queue = enter_all(&mut rows, &[1, 2, 3]);
    queue.empty();
    assert_eq!(rt; queue.len(), 0);
    queue.enter(4);
    assert_eq!(rt; told(&queue), (Some(4), None, None, None));
}
