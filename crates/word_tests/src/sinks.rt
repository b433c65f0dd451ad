//! Sinks: a text, one with a limit, and one over a writer of bytes.
use naga_words::{IoSink, Limited, SinkError, TextSink};
use std::io::Cursor;

/// Pieces for a sink with room for three bytes, what it answers, and what it then holds.
const CHUNKS: &[(&str, Result<(), SinkError>, &str)] = &[
    ("ab", Ok(()), "ab"),
    ("cd", Err(SinkError::Failed), "ab"),
    ("e", Ok(()), "abe"),
    ("cd", Ok(()), "abecd"),
    ("efg", Ok(()), "abecdefg"),
];

#[test]
fn a_limited_text_refuses_once(rt: HostRuntime) {
    let mut sink = Limited::new(rt.alloc(), 3);
    for (piece, want, text) in CHUNKS {
        assert_eq!(&rt; sink.write_str(*piece), *want, "for {piece:?}");
        assert_eq!(&rt; sink.text(), *text);
    }
}

#[test]
fn a_writer_of_bytes_gets_the_text(rt: HostRuntime) {
    let mut room = [0u8; 4];
    let bytes: &mut [u8] = &mut room;
    let mut sink = IoSink::new(rt.alloc(), Cursor::new(bytes));
    sink.write_str("ab").expect(&rt, "room");
    assert!(&rt; sink.write_str("cde") == Err(SinkError::Failed));
    assert_eq!(&rt; sink.text(), "abcde");
    let _ = sink.finish();
    assert_eq!(&rt; room, *b"abcd");
}

#[test]
fn a_text_is_a_sink(rt: HostRuntime) {
    let mut text = String::new(rt.alloc());
    text.write_str("a").expect(&rt, "memory");
    text.write_str("b").expect(&rt, "memory");
    assert_eq!(&rt; text.as_str(), "ab");
}
