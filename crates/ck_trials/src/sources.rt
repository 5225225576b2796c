// Sources, sinks and clocks: what they give and take, and what fails.
use ck_io::{
    Clock, Failed, FixedClock, InputFault, MemSink, MemSource, Source, StdSink, StdSource,
    SystemClock, read_all, write_all,
};
use std::io;
use std::test::Fail;

fn moment<C: Clock + Send>(mut clock: C) -> u64 {
    clock.now()
}

#[test]
fn clocks_give_the_moment(rt: HostRuntime) {
    assert_eq!(rt; moment(FixedClock { now: 100 }), 100);
    assert!(rt; moment(SystemClock::new(rt)) > 1_500_000_000);
    assert!(rt; moment(SystemClock::new(&rt)) > 1_500_000_000);
}

#[test]
fn a_source_gives_what_the_reader_gives(rt: HostRuntime) {
    let mut piece = [0; 8];
    let mut source = StdSource::new(b"text".as_slice());
    assert_eq!(rt; source.read(&mut piece), Ok(4));
    assert_eq!(rt; piece, *b"text\0\0\0\0");
    assert_eq!(rt; source.read(&mut piece), Ok(0));
    assert_eq!(rt; StdSource::new(rt.stdin()).read(&mut []), Ok(0));
}

#[test]
fn a_sink_passes_bytes_on(rt: HostRuntime) {
    let mut held = [0; 6];
    let mut sink = StdSink::new(held.as_mut_slice());
    assert_eq!(rt; write_all(&mut sink, b"text"), Ok(()));
    assert_eq!(rt; write_all(&mut sink, b"text"), Err(Failed), "two bytes fit");
    assert_eq!(rt;
        write_all(&mut StdSink::new(io::writer(&rt)), b"out\n"),
        Ok(())
    );
    assert_eq!(rt; held, *b"textte");
}

/// What an input that was read is, by its bytes, and whether it was all or too long.
fn told(answer: Result<Vec<u8>, InputFault>, text: &[u8]) -> Option<bool> {
    match answer {
        Ok(bytes) if bytes.as_slice() == text => Some(true),
        Err(InputFault::TooLong(bytes)) if bytes.as_slice() == text => Some(false),
        _ => None,
    }
}

#[test]
fn a_source_is_read_on_after_a_fault(rt: HostRuntime) -> Result<(), Fail> {
    let alloc = rt.alloc();
    let fails = [1, 3].to_vec(alloc)?;
    let mut source = MemSource::new(b"thirteen byte".to_vec(alloc)?, 7, fails);
    for _ in 0..2 {
        let failed = read_all(alloc, &mut source, 13);
        assert!(rt; matches!(failed, Err(InputFault::ReadFault)));
    }
    assert_eq!(rt; told(read_all(alloc, &mut source, 2), b"n b"), Some(false));
    assert_eq!(rt; told(read_all(alloc, &mut source, 3), b"yte"), Some(true));
    Ok(())
}

#[test]
fn a_sink_takes_all_or_fails(rt: HostRuntime) -> Result<(), Fail> {
    let alloc = rt.alloc();
    let mut sink = MemSink::new(alloc, [1, 3].to_vec(alloc)?);
    for (text, works) in [
        (b"lost".as_slice(), false),
        (b"kept", true),
        (b"", true),
        (b"lost", false),
        (b" too", true),
    ] {
        assert_eq!(rt; write_all(&mut sink, text).is_ok(), works);
    }
    assert_eq!(rt; sink.into_bytes().as_slice(), b"kept too".as_slice());
    Ok(())
}
