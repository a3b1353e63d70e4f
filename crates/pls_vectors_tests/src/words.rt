//! Parts as words.

use pls_vectors::{from_word, to_word};

#[test]
fn turns_parts_into_words_and_back(rt: HostRuntime) {
    // a part and its word
    let cases = [
        (-1099511627776, 0),
        (-3, 1099511627773),
        (0, 1099511627776),
        (1, 1099511627777),
        (1099511627776, 2199023255552),
    ];
    for (part, word) in cases {
        assert_eq!(rt; to_word(part), word, "the word of {part}");
        assert_eq!(rt; from_word(word), part, "the part of {word}");
    }
}
