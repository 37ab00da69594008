use counting::row::Row;
use order::Order;
use priority::priority::{BadPriority, Priority};
use priority::priority_parts::PriorityParts;
use std::test::Fail;
use values::hint_numbers::HintNumbers;

fn over(numerator: u64, denominator: u64) -> PriorityParts {
    PriorityParts {
        numerator,
        denominator,
    }
}

fn parts_of(made: Result<Priority, BadPriority>) -> Result<PriorityParts, BadPriority> {
    made.map(Priority::parts)
}

fn made(numerator: u64, denominator: u64) -> Result<PriorityParts, BadPriority> {
    parts_of(Priority::try_from(over(numerator, denominator)))
}

#[test]
fn parts_have_limits(rt: HostRuntime) {
    assert_eq!(rt; made(4_194_304, 1), Ok(over(4_194_304, 1)));
    assert_eq!(rt; made(4_194_305, 1), Err(BadPriority));
    assert_eq!(rt; made(0, 274_877_906_944), Ok(over(0, 274_877_906_944)));
    assert_eq!(rt; made(0, 274_877_906_945), Err(BadPriority));
    assert_eq!(rt; made(1, 0), Err(BadPriority));
}

#[test]
fn equal_fractions_are_not_greater(rt: HostRuntime) -> Result<(), Fail> {
    let half = Priority::try_from(over(1, 2))?;
    let again = Priority::try_from(over(2, 4))?;
    assert!(rt; !half.greater(again));
    assert!(rt; !again.greater(half));
    assert!(rt; !again.precedes(&half));
    assert!(rt; Priority::lowest().precedes(&half));
    assert!(rt; half.greater(Priority::lowest()));
    assert!(rt;
        Priority::try_from(over(4_194_304, 1))?.greater(Priority::try_from(over(4_194_303, 1))?)
    );
    Ok(())
}

#[test]
fn fractions_are_equal_by_value(rt: HostRuntime) -> Result<(), Fail> {
    let half = Priority::try_from(over(1, 2))?;
    assert!(rt; half == Priority::try_from(over(2, 4))?);
    assert!(rt; half > Priority::try_from(over(1, 3))?);
    Ok(())
}

/// A hint row by count, error, repeats and distances.
fn row(count: u32, error: u32, repeats: u32, distances: u32) -> Row<HintNumbers> {
    Row {
        key: HintNumbers::default(),
        count,
        error,
        entered: 1,
        repeats,
        distances,
    }
}

fn given(row: Row<HintNumbers>) -> Result<PriorityParts, BadPriority> {
    parts_of(Priority::from_row(row))
}

#[test]
fn a_row_gives_repeats_squared_over_requests_by_distances(rt: HostRuntime) {
    assert_eq!(rt; given(row(5, 3, 2, 5)), Ok(over(4, 10)));
    assert_eq!(rt; given(row(1, 0, 1, 6)), Ok(over(1, 6)));
    assert_eq!(rt; given(row(9, 4, 0, 7)), Ok(over(0, 1)));
    let largest = row(2048, 0, 2048, 134_215_680);
    assert_eq!(rt; given(largest), Ok(over(4_194_304, 274_873_712_640)));
}

#[test]
fn a_row_that_no_table_gives_is_refused(rt: HostRuntime) {
    assert_eq!(rt; given(row(2, 0, 1, 0)), Err(BadPriority));
    assert_eq!(rt; given(row(2, 3, 1, 1)), Err(BadPriority));
    assert_eq!(rt; given(row(9, 0, 4_294_967_295, 1)), Err(BadPriority));
}
