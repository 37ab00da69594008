use cache::cache::Cache;
use rules::entry::Entry;
use values::hint_numbers::HintNumbers;

/// An entry of a hint set without values.
fn entry(page: u32, number: u32) -> Entry {
    Entry {
        page,
        number,
        hints: HintNumbers::default(),
    }
}

#[test]
fn a_full_cache_takes_no_more(rt: HostRuntime) {
    let mut rows = [entry(9, 9); 3];
    let mut bytes = [0; 600];
    let mut cache = Cache::new(&mut rows, &mut bytes);
    assert_eq!(rt; cache.room(), 2);
    assert!(rt; cache.push(entry(1, 1), &[1; 256]));
    assert_eq!(rt; cache.find(9), None);
    assert!(rt; cache.push(entry(2, 2), &[2; 256]));
    assert!(rt; !cache.push(entry(3, 3), &[3; 256]));
    assert_eq!(rt; cache.find(2), Some(1));
}

#[test]
fn a_page_is_copied_whole_or_not_at_all(rt: HostRuntime) {
    let mut rows = [entry(9, 9); 1];
    let mut bytes = [0; 256];
    let mut cache = Cache::new(&mut rows, &mut bytes);
    assert!(rt; cache.push(entry(1, 1), &[1; 256]));
    assert!(rt; !cache.put(0, entry(2, 2), &[2; 255]));
    assert!(rt; cache.put(0, entry(3, 3), &[3; 256]));
    let mut page = [7; 256];
    assert!(rt; !cache.copy_out(1, &mut page));
    assert_eq!(rt; page[255], 7);
    assert!(rt; cache.copy_out(0, &mut page));
    assert_eq!(rt; page[255], 3);
}

#[test]
fn the_lower_number_gives_way(rt: HostRuntime) {
    let mut rows = [entry(9, 9); 2];
    let mut bytes = [0; 512];
    let mut cache = Cache::new(&mut rows, &mut bytes);
    assert_eq!(rt; cache.victim(&[]), None);
    assert!(rt; cache.push(entry(1, 2), &[1; 256]));
    assert!(rt; cache.push(entry(2, 1), &[2; 256]));
    assert_eq!(rt; cache.victim(&[]), Some(1));
    assert!(rt; cache.touch(1, entry(2, 3)));
    assert_eq!(rt; cache.victim(&[]), Some(0));
}
