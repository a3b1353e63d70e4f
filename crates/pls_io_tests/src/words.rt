//! The words of a text.

use pls_io::{Tokens, Word};

// A text, and its words with their places.
const TEXTS: [(&[u8], &[(u32, &[u8])]); 6] = [
    (b"", &[]),
    (b"#pls1", &[]),
    (b"pls1#c\nlot", &[(0, b"pls1"), (7, b"lot")]),
    (b"\0", &[(0, b"\0")]),
    (b"a\tb\rc", &[(0, b"a"), (2, b"b"), (4, b"c")]),
    (b"7\t# done", &[(0, b"7")]),
];

#[test]
fn finds_words(rt: HostRuntime) {
    for (text, words) in TEXTS {
        let mut tokens = Tokens::new(text);
        for (place, word) in words {
            let found = tokens.next_word();
            assert_eq!(rt;
                found,
                Some(Word {
                    place: *place,
                    text: *word
                })
            );
        }
        assert_eq!(rt; tokens.next_word(), None);
        assert_eq!(rt; tokens.next_word(), None);
    }
}
