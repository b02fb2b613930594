use crate::expect::{same, same_bytes};
use std::alloc::Global;
use words::{push_long_word, push_word, take_long_word, take_word};

const WORDS: [u8; 12] = [1, 2, 3, 4, 5, 6, 7, 8, 9, 10, 11, 12];

fn pushed(alloc: Global) -> Option<Vec<u8>> {
    let mut out = Vec::new(alloc);
    push_word(&mut out, 0x0403_0201).ok()?;
    push_long_word(&mut out, 0x0c0b_0a09_0807_0605).ok()?;
    Some(out)
}

#[test]
fn pushes_and_takes(rt: HostRuntime) {
    same_bytes(&rt, pushed(rt.alloc()), &WORDS);
    let rest = &WORDS[4..];
    same(&rt, take_word(&WORDS), Some((0x0403_0201, rest)));
    let long = 0x0c0b_0a09_0807_0605;
    same(&rt, take_long_word(rest), Some((long, &[][..])));
}
