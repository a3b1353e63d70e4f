//! Solutions as bits and as bytes.

use pls_vectors::Sol;

#[test]
fn sets_and_clears_bits(rt: HostRuntime) {
    // the item, its word, and that word with the item alone chosen
    let cases = [
        (0, 0, 1),
        (63, 0, 0x8000_0000_0000_0000),
        (64, 1, 1),
        (127, 1, 0x8000_0000_0000_0000),
        (255, 3, 0x8000_0000_0000_0000),
    ];
    for (item, word, alone) in cases {
        let mut one = Sol::bits(256);
        assert!(rt; !one.bit(item), "{item} at first");
        one.set_bit(item, true);
        assert!(rt; one.bit(item), "{item} set");
        assert_eq!(rt; one.word(word), alone, "the word of {item}");
        one.set_bit(item, false);
        assert_eq!(rt; one, Sol::bits(256), "{item} cleared");
    }
}

#[test]
fn keeps_the_other_bits(rt: HostRuntime) {
    let mut items = Sol::bits(65);
    items.set_bit(0, true);
    items.set_bit(63, true);
    items.set_bit(64, true);
    items.set_bit(0, false);
    assert_eq!(rt; [items.word(0), items.word(1)], [0x8000_0000_0000_0000, 1]);
    assert_eq!(rt; items.len(), 65);
}

#[test]
fn stores_entries_as_bytes(rt: HostRuntime) {
    // the place, its word, and that word of the order of 256 entries
    let cases = [
        (0, 0, 0x0706_0504_0302_0100),
        (7, 0, 0x0706_0504_0302_0100),
        (8, 1, 0x0f0e_0d0c_0b0a_0908),
        (255, 31, 0xfffe_fdfc_fbfa_f9f8),
    ];
    for (place, word, packed) in cases {
        let order = Sol::order(256);
        assert_eq!(rt; order.entry(place) as u16, place, "entry {place}");
        assert_eq!(rt; order.word(word), packed, "the word of {place}");
    }
    assert_eq!(rt; Sol::of_entries(&[0, 1, 2]), Sol::order(3));
    assert_eq!(rt; Sol::of_entries(&[2, 0]).word(0), 2);
    let mut words = [0; 32];
    words[0] = 2;
    assert_eq!(rt; Sol::of_words(2, words), Sol::of_entries(&[2, 0]));
}

#[test]
fn exchanges_and_reverses_entries(rt: HostRuntime) {
    // two places, and ten entries in order after they are exchanged, and after the stretch is reversed
    let cases: [(u16, u16, [u16; 10], [u16; 10]); 4] = [
        (
            0,
            9,
            [9, 1, 2, 3, 4, 5, 6, 7, 8, 0],
            [9, 8, 7, 6, 5, 4, 3, 2, 1, 0],
        ),
        (
            1,
            8,
            [0, 8, 2, 3, 4, 5, 6, 7, 1, 9],
            [0, 8, 7, 6, 5, 4, 3, 2, 1, 9],
        ),
        (
            2,
            4,
            [0, 1, 4, 3, 2, 5, 6, 7, 8, 9],
            [0, 1, 4, 3, 2, 5, 6, 7, 8, 9],
        ),
        (
            5,
            5,
            [0, 1, 2, 3, 4, 5, 6, 7, 8, 9],
            [0, 1, 2, 3, 4, 5, 6, 7, 8, 9],
        ),
    ];
    for (i, j, exchanged, reversed) in cases {
        let mut sol = Sol::order(10);
        assert!(rt; i < sol.len() && j < sol.len());
        sol.swap(i, j);
        assert_eq!(rt; sol, Sol::of_entries(&exchanged), "{i} and {j} exchanged");
        let mut sol = Sol::order(10);
        assert!(rt; i <= j && j < sol.len());
        sol.reverse(i, j);
        assert_eq!(rt; sol, Sol::of_entries(&reversed), "{i} to {j} reversed");
    }
}
