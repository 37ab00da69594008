use crate::hint_numbers::HintNumbers;
use crate::hint_set::{BadHintSet, HintSet};
use crate::size_numbers::SizeNumbers;
use crate::sizes::{BadSize, SizeName, Sizes};
use std::process::Abort;

/// Sizes that are all 1 but for one.
fn with(name: SizeName, size: u32) -> SizeNumbers {
    let mut n = SizeNumbers {
        cache_places: 1,
        queue_places: 1,
        hint_rows: 1,
        page_rows: 1,
        window: 1,
    };
    match name {
        SizeName::CachePlaces => n.cache_places = size,
        SizeName::QueuePlaces => n.queue_places = size,
        SizeName::HintRows => n.hint_rows = size,
        SizeName::PageRows => n.page_rows = size,
        SizeName::Window => n.window = size,
    }
    n
}

fn check_limit(rt: &impl Abort, name: SizeName, most: u32, over: u32) {
    assert_eq!(rt; Sizes::try_from(with(name, 0)), Err(BadSize(name)));
    assert!(rt; Sizes::try_from(with(name, 1)).is_ok());
    assert!(rt; Sizes::try_from(with(name, most)).is_ok());
    assert_eq!(rt; Sizes::try_from(with(name, over)), Err(BadSize(name)));
}

#[test]
fn each_size_is_from_one_to_its_limit(rt: HostRuntime) {
    check_limit(&rt, SizeName::CachePlaces, 1024, 1025);
    check_limit(&rt, SizeName::QueuePlaces, 8192, 8193);
    check_limit(&rt, SizeName::HintRows, 256, 257);
    check_limit(&rt, SizeName::PageRows, 256, 257);
    check_limit(&rt, SizeName::Window, 2048, 2049);
}

#[test]
fn the_first_bad_size_is_named(rt: HostRuntime) {
    let n = SizeNumbers {
        cache_places: 1024,
        queue_places: 8192,
        hint_rows: 0,
        page_rows: 257,
        window: 0,
    };
    assert_eq!(rt; Sizes::try_from(n), Err(BadSize(SizeName::HintRows)));
}

#[test]
fn a_hint_set_has_up_to_five_values(rt: HostRuntime) {
    let n = HintNumbers {
        client: 15,
        count: 5,
        first: 1,
        second: 2,
        third: 3,
        fourth: 4,
        fifth: 65535,
    };
    assert_eq!(rt;
        HintSet::new(15, &[1, 2, 3, 4, 65535]).map(HintSet::numbers),
        Ok(n)
    );
    assert_eq!(rt; HintSet::new(15, &[1, 2, 3, 4, 5, 6]), Err(BadHintSet));
    assert_eq!(rt; HintSet::new(16, &[1]), Err(BadHintSet));
}

#[test]
fn plain_numbers_are_checked(rt: HostRuntime) {
    let n = HintNumbers {
        client: 0,
        count: 1,
        first: 7,
        second: 0,
        third: 0,
        fourth: 0,
        fifth: 0,
    };
    assert_eq!(rt; HintSet::try_from(n), HintSet::new(0, &[7]));
    assert_eq!(rt;
        HintSet::try_from(HintNumbers { second: 1, ..n }),
        Err(BadHintSet)
    );
    assert_eq!(rt;
        HintSet::try_from(HintNumbers { client: 16, ..n }),
        Err(BadHintSet)
    );
    assert_eq!(rt;
        HintSet::try_from(HintNumbers { count: 6, ..n }),
        Err(BadHintSet)
    );
}
