// Faults of the source and the sink, met by the top call over streams.
use crate::runs::{number_of, source};
use ck_image::image_top;
use ck_io::MemSink;
use std::test::Fail;

/// A checkpoint that holds nothing.
const FULL: &[u8] =
    b"CKFULL01\x00\x00\x00\x01\x00\x00\x00\x00\x00\x00\x00\x00\x00\xae\x1f\x51\x95\x81\x7d\xe0\x20\x23\xe3\x52\xdb\x8c\xfc\xc5\xc6\x2a\xd6\xc6\x73\x7e\x6e\x7f\x90\xc1\x55\x9d\x26\x74\xd6\x6d\xae";

#[test]
fn streams_end_at_a_fault(rt: HostRuntime) -> Result<(), Fail> {
    let alloc = rt.alloc();
    for (word, read, print, status, line) in [
        ("verify", 2, 0, 6, b"source fault\n".as_slice()),
        ("apply", 9, 0, 6, b"source fault\n"),
        ("verify", 0, 1, 7, b"sink fault\n"),
        ("apply", 0, 1, 7, b"sink fault\n"),
    ] {
        let mut words = Vec::new(alloc);
        words.push(word.to_string(alloc)?)?;
        let mut input = source(alloc, FULL, &[read])?;
        let mut printed = MemSink::new(alloc, [print].to_vec(alloc)?);
        let mut said = MemSink::new(alloc, Vec::new(alloc));
        let ended = image_top(alloc, &words, &mut input, &mut printed, &mut said);
        assert_eq!(rt; number_of(&ended), status, "{word} {read} {print}");
        assert!(rt; printed.bytes().is_empty() && said.bytes() == line);
    }
    Ok(())
}
