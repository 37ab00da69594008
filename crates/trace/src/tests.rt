use crate::fault::{Cause, Fault};
use crate::reader::Reader;
use crate::whole::count_items;
use std::test::Fail;

/// Sizes 1, 2, 2, 2 and 4, and a write of byte 7 to page 30 by client 15 with hint 9.
const TRACE: [u8; 32] = [
    0x00, 0, 0, 1, 0x01, 0, 0, 2, 0x02, 0, 0, 2, 0x03, 0, 0, 2, 0x04, 0, 0, 4, 0x2f, 0x10, 0, 30,
    0x30, 0, 0, 9, 0x40, 0, 0, 7,
];

fn fault(cause: Cause, place: usize) -> Result<usize, Fault> {
    Err(Fault { cause, place })
}

/// The trace with one bit of a word turned.
fn turned(word: usize, bit: usize) -> Result<usize, Fault> {
    let mut trace = TRACE;
    if word < 8 && bit < 32 {
        let at = 4 * word + 3 - bit / 8;
        trace[at] ^= 1 << (bit % 8);
    }
    count_items(&trace)
}

#[test]
fn a_trace_is_cut_at_every_byte(rt: HostRuntime) {
    for n in 0..20usize {
        assert_eq!(rt; count_items(&TRACE[0..n]), fault(Cause::Ended, n / 4));
    }
    assert_eq!(rt; count_items(&TRACE[0..20]), Ok(0));
    for n in 21..32usize {
        assert_eq!(rt; count_items(&TRACE[0..n]), fault(Cause::Ended, n / 4));
    }
    assert_eq!(rt; count_items(&TRACE), Ok(1));
}

#[test]
fn every_zero_bit_is_tested(rt: HostRuntime) {
    for bit in 16..24usize {
        for word in 0..5usize {
            assert_eq!(rt; turned(word, bit), fault(Cause::Bits, word));
        }
    }
    for bit in 16..20usize {
        assert_eq!(rt; turned(5, bit), fault(Cause::Bits, 5));
    }
    for bit in 16..28usize {
        assert_eq!(rt; turned(6, bit), fault(Cause::Bits, 6));
        assert_eq!(rt; turned(7, bit), fault(Cause::Bits, 7));
    }
    for bit in 8..16usize {
        assert_eq!(rt; turned(7, bit), fault(Cause::Bits, 7));
    }
}

#[test]
fn a_word_of_another_kind_is_refused(rt: HostRuntime) {
    for word in 0..8usize {
        assert_eq!(rt; turned(word, 31), fault(Cause::Kind, word));
    }
    // Kind 3 where an item starts, and kind 2 where a hint is due.
    assert_eq!(rt; turned(5, 28), fault(Cause::Kind, 5));
    assert_eq!(rt; turned(6, 28), fault(Cause::Kind, 6));
}

#[test]
fn sizes_are_in_order_and_within_limits(rt: HostRuntime) {
    assert_eq!(rt; turned(0, 24), fault(Cause::Bits, 0));
    assert_eq!(rt; turned(0, 0), fault(Cause::SizeLimit, 0));
    assert_eq!(rt; turned(1, 14), fault(Cause::SizeLimit, 1));
    assert_eq!(rt; turned(2, 9), fault(Cause::SizeLimit, 2));
    assert_eq!(rt; turned(3, 9), fault(Cause::SizeLimit, 3));
    assert_eq!(rt; turned(4, 12), fault(Cause::SizeLimit, 4));
}

#[test]
fn five_hints_are_due_and_six_refused(rt: HostRuntime) {
    // Hint counts 5, 3 and 6 in place of 1: the next word is no hint, or the count itself is bad.
    assert_eq!(rt; turned(5, 22), fault(Cause::Kind, 7));
    assert_eq!(rt; turned(5, 21), fault(Cause::Kind, 7));
    let mut six = TRACE;
    six[21] = 0x60;
    assert_eq!(rt; count_items(&six), fault(Cause::Bits, 5));
}

#[test]
fn a_refused_reader_stays_where_it_was(rt: HostRuntime) -> Result<(), Fail> {
    let mut reader = Reader::new(&TRACE);
    assert!(rt; reader.next().is_err());
    assert!(rt; reader.sizes().is_ok());
    assert!(rt; reader.sizes().is_err());
    let Ok(Some(item)) = reader.next() else {
        return Err(Fail::new("an item"));
    };
    assert_eq!(rt; item.place, 5);
    assert_eq!(rt; item.page, 30);
    assert_eq!(rt; item.client, 15);
    assert!(rt; item.hint_set().is_ok());
    assert!(rt; matches!(reader.next(), Ok(None)));
    Ok(())
}
