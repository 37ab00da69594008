use counting::count_all::{Counting, count_all};
use counting::row::Row;
use counting::table::{NotCounted, Table};
use keys::hints::same_hints;
use order::Order;
use order::least::least_place;
use std::test::Fail;
use values::hint_numbers::HintNumbers;
use values::hint_set::HintSet;

const A: u32 = 1;

const B: u32 = 2;

const C: u32 = 3;

fn at(key: u32, number: u32) -> Counting<u32> {
    Counting { key, number }
}

/// What a row may hold before it is used.
fn unused<K>(key: K) -> Row<K> {
    Row {
        key,
        count: 7,
        error: 7,
        entered: 7,
        repeats: 7,
        distances: 7,
    }
}

/// What a row holds: key, count, error and entered number.
fn told(row: &Row<u32>) -> (u32, u32, u32, u32) {
    (row.key, row.count, row.error, row.entered)
}

#[test]
fn a_new_key_takes_over_the_least_count(rt: HostRuntime) -> Result<(), Fail> {
    let mut rows = [unused(9); 2];
    let table = count_all(&mut rows, &[at(A, 1), at(B, 2), at(C, 3), at(A, 4)]);
    let [first, second] = table.used_rows() else {
        return Err(Fail::new("two rows are used"));
    };
    assert_eq!(rt; told(first), (C, 2, 1, 3));
    assert_eq!(rt; told(second), (A, 2, 1, 4));
    assert_eq!(rt; table.lookup(A), Some((2, 1)));
    assert_eq!(rt; table.lookup(B), None);
    Ok(())
}

#[test]
fn one_row_goes_to_the_latest_key(rt: HostRuntime) {
    let mut rows = [unused(9); 1];
    let table = count_all(&mut rows, &[at(A, 1), at(B, 2)]);
    assert_eq!(rt; table.lookup(A), None);
    assert_eq!(rt; table.lookup(B), Some((2, 1)));
}

#[test]
fn among_equal_counts_the_earliest_entered_gives_way(rt: HostRuntime) {
    let mut rows = [unused(9); 2];
    let table = count_all(&mut rows, &[at(A, 5), at(B, 3), at(C, 6)]);
    assert_eq!(rt; table.lookup(A), Some((1, 0)));
    assert_eq!(rt; table.lookup(B), None);
    assert_eq!(rt; table.lookup(C), Some((2, 1)));
}

#[test]
fn the_first_gives_way_where_all_is_equal(rt: HostRuntime) {
    let mut rows = [unused(9); 2];
    let table = count_all(&mut rows, &[at(A, 1), at(B, 1), at(C, 2)]);
    assert_eq!(rt; table.lookup(A), None);
    assert_eq!(rt; table.lookup(B), Some((1, 0)));
}

#[test]
fn rows_are_a_run_in_the_order_of_giving_way(rt: HostRuntime) {
    let row = |count, entered| Row {
        count,
        entered,
        ..unused(A)
    };
    let rows = [row(2, 1), row(1, 5), row(1, 3), row(1, 3)];
    let run = rows.as_slice();
    assert_eq!(rt; least_place(&run), Some(2));
    assert!(rt; rows[2].precedes(&rows[1]));
    assert!(rt; !rows[2].precedes(&rows[3]));
}

#[test]
fn the_limit_is_2048_countings_since_emptied(rt: HostRuntime) -> Result<(), Fail> {
    let mut rows = [unused(9); 3];
    let mut table = Table::new(&mut rows);
    for number in 0..2048 {
        table.count(A, number)?;
    }
    assert_eq!(rt; table.count(B, 2048), Err(NotCounted));
    assert_eq!(rt; table.lookup(A), Some((2048, 0)));
    assert_eq!(rt; table.lookup(B), None);
    table.empty();
    assert_eq!(rt; table.lookup(A), None);
    assert_eq!(rt; table.count(B, 2049), Ok(()));
    Ok(())
}

#[test]
fn a_table_without_rows_refuses(rt: HostRuntime) {
    let mut rows = [unused(9); 0];
    assert_eq!(rt; Table::new(&mut rows).count(A, 1), Err(NotCounted));
}

fn hints(client: u8, value: u16) -> Result<HintNumbers, Fail> {
    Ok(HintSet::new(client, &[value])?.numbers())
}

#[test]
fn a_new_key_has_no_repeats(rt: HostRuntime) -> Result<(), Fail> {
    let x = hints(0, 1)?;
    let y = hints(1, 1)?;
    let mut rows = [unused(y); 1];
    let mut table = Table::new(&mut rows);
    table.credit(x, 7);
    table.count(x, 1)?;
    table.credit(x, 3);
    table.credit(x, 4);
    table.credit(y, 5);
    let row = table.row_of(x).ok_or("counted")?;
    assert_eq!(rt; (row.repeats, row.distances), (2, 7));
    table.count(y, 2)?;
    let row = table.row_of(y).ok_or("counted")?;
    assert_eq!(rt;
        (row.count, row.error, row.repeats, row.distances),
        (2, 1, 0, 0)
    );
    Ok(())
}

#[test]
fn two_clients_never_share_a_hint_set(rt: HostRuntime) -> Result<(), Fail> {
    let x = HintSet::new(0, &[1])?;
    assert!(rt; same_hints(x, HintSet::new(0, &[1])?));
    assert!(rt; !same_hints(x, HintSet::new(1, &[1])?));
    assert!(rt; !same_hints(x, HintSet::new(0, &[1, 0])?));
    Ok(())
}
