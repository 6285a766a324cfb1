// Each refusal of a book file, at its edges: the seal book cut off, with a byte more, or with another byte.
use crate::samples::{SEAL, seal_with};
use book_file::reading::read_book;

// Are these bytes refused with this number at this place? Both are what is printed of a refused file.
fn is_refused(bytes: &[u8], number: u32, place: usize) -> bool {
    read_book(bytes).is_err_and(|fault| fault.number() == number && fault.place() == Some(place))
}

// Is the seal book with this byte refused there?
fn is_bad(at: usize, byte: u8, number: u32) -> bool {
    is_refused(&seal_with(at, byte), number, at)
}

#[test]
fn fewer_bytes_than_a_header(rt: HostRuntime) {
    assert!(rt; is_refused(b"", 11, 0));
    assert!(rt; is_refused(&SEAL[0..9], 11, 9));
    assert!(rt; is_refused(&SEAL[0..10], 15, 10));
}

#[test]
fn other_letters(rt: HostRuntime) {
    assert!(rt; is_refused(&seal_with(0, b's'), 12, 0));
    assert!(rt; is_refused(&seal_with(1, b'e'), 12, 0));
    assert!(rt; is_refused(&seal_with(2, b'l'), 12, 0));
}

#[test]
fn another_version(rt: HostRuntime) {
    assert!(rt; is_refused(&seal_with(3, 0), 13, 3));
    assert!(rt; is_refused(&seal_with(3, 2), 13, 3));
    assert!(rt; is_refused(&seal_with(4, 1), 13, 3));
}

#[test]
fn header_numbers_out_of_range(rt: HostRuntime) {
    assert!(rt; is_bad(5, 0, 14) && is_bad(5, 65, 14));
    assert!(rt; is_bad(6, 0, 14) && is_bad(6, 65, 14));
    assert!(rt; is_bad(7, 0, 14) && is_bad(7, 33, 14));
    assert!(rt; is_bad(8, 2, 14));
    assert!(rt; is_bad(9, 5, 14) && !is_bad(9, 4, 14));
}

#[test]
fn tables_cut_off_before_their_entries_are_looked_at(rt: HostRuntime) {
    let bytes = seal_with(10, 2);
    assert!(rt; is_refused(&bytes[0..84], 15, 84));
    assert!(rt; is_refused(&bytes[0..85], 17, 10));
}

#[test]
fn first_bad_entry_of_each_table(rt: HostRuntime) {
    assert!(rt; is_bad(10, 2, 17) && is_bad(14, 2, 17));
    assert!(rt; is_bad(15, 5, 17) && is_bad(29, 5, 17));
    assert!(rt; is_bad(30, 5, 17) && is_bad(44, 5, 17));
    assert!(rt; is_bad(45, 5, 17) && is_bad(59, 5, 17));
    assert!(rt; is_bad(60, 5, 17) && is_bad(84, 5, 17));
    let mut bytes = seal_with(59, 5);
    bytes[15] = 5;
    assert!(rt; is_refused(&bytes, 17, 15));
}

#[test]
fn names_cut_off(rt: HostRuntime) {
    assert!(rt; is_refused(&SEAL[0..85], 15, 85));
    assert!(rt; is_refused(&SEAL[0..89], 15, 89));
    assert!(rt; is_refused(&SEAL[0..90], 15, 90));
    assert!(rt; is_refused(&SEAL[0..94], 15, 94));
    assert!(rt; is_refused(&seal_with(90, 5), 15, 95));
}

#[test]
fn length_of_a_name_then_whether_it_is_whole_then_its_bytes(rt: HostRuntime) {
    assert!(rt; is_bad(85, 0, 18) && is_bad(85, 65, 18));
    assert!(rt; is_refused(&seal_with(85, 64), 15, 95));
    let bytes = seal_with(86, b'1');
    assert!(rt; is_refused(&bytes[0..89], 15, 89) && is_refused(&bytes[0..90], 18, 86));
    assert!(rt; is_bad(86, b'-', 18) && !is_bad(87, b'-', 18));
    assert!(rt; is_bad(87, b'/', 18) && is_bad(94, 128, 18));
}

#[test]
fn first_byte_too_many(rt: HostRuntime) {
    let mut bytes = [0; 97];
    bytes[0..95].copy_from_slice(&SEAL);
    assert!(rt; is_refused(&bytes[0..96], 16, 95));
    assert!(rt; is_refused(&bytes, 16, 95));
    assert!(rt; is_refused(&seal_with(90, 3), 16, 94));
}
