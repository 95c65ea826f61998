//! What this crate's tests share: the id of their sets, the words of a line, and the texts of long scripts.

pub(crate) mod folder;
pub(crate) mod streams;
pub(crate) mod texts;

use std::fmt::Debug;
use std::process::Abort;

/// The id of each set.
pub(crate) const ID: [u8; 16] = [0, 1, 2, 3, 4, 5, 6, 7, 8, 9, 10, 11, 12, 13, 14, 15];

const ID_TEXT: &str = "000102030405060708090a0b0c0d0e0f";

/// Ends the test where `got` is not `want`. As a call it leaves the test a fraction of what `assert_eq!` would
/// put into it, and so of the time that the test is checked in.
pub(crate) fn same<T: PartialEq + Debug + Drop>(rt: &impl Abort, got: T, want: T) {
    assert_eq!(rt; got, want);
}

/// The words of a line, after each of which a `|` stands, that of the last one left out where the word is not
/// empty. For `@` the folder is put in, and for `H` the id of the sets. Lines in tables are written so, since a
/// text costs the check of a test less than its words.
pub(crate) fn words_in<'a>(
    rt: &(impl Abort + AllocGlobal),
    line: &'a str,
    folder: &'a str,
) -> Vec<&'a str> {
    let mut words = Vec::new(rt.alloc());
    for word in line.split_terminator('|') {
        words.push(put_in(word, folder)).expect(rt, "memory");
    }
    words
}

fn put_in<'a>(word: &'a str, folder: &'a str) -> &'a str {
    if word == "@" {
        folder
    } else if word == "H" {
        ID_TEXT
    } else {
        word
    }
}

/// A text of these parts, each so many times.
pub(crate) fn joined(rt: &(impl Abort + AllocGlobal), parts: &[(&[u8], usize)]) -> Vec<u8> {
    let mut all = Vec::new(rt.alloc());
    for (part, count) in parts {
        for _ in 0..*count {
            all.extend_from_slice(part).expect(rt, "memory");
        }
    }
    all
}
