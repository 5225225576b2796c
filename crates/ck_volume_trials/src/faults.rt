// Faults of the source, the sink and the device, met by the top call.
use crate::runs::{copy_of, play_on, run_on, source, volume};
use ck_disk::NoMemory;
use std::alloc::Global;
use std::test::Fail;

const FIRST: &[u8] = b"1 make /a
1 write /a 0 t:hello
1 create c1
1 write /a 0 t:HELLO
1 mount x c1
1 cread x /a 0 5
";

#[test]
fn ends_at_a_fault_of_the_source_or_the_sink(rt: HostRuntime) -> Result<(), Fail> {
    let alloc = rt.alloc();
    for (read, print, status, line) in [
        (1, 0, 6, b"source fault\n".as_slice()),
        (5, 0, 6, b"source fault\n"),
        (0, 1, 7, b"sink fault\n"),
    ] {
        let script = source(alloc, FIRST, &[read])?;
        let ended = run_on(alloc, &["play"], script, &[print], volume(alloc)?)?;
        assert!(rt; ended.has(status, b"", line), "{read} {print}");
    }
    Ok(())
}

/// Each of its writes behind the first reads the old block before it writes the new one.
const FAULTY: &[u8] = b"1 make /a
1 write /a 0 t:hello
1 read /a 1 3
1 create c1
1 write /a 2 t:LL
1 mount x c1
1 cread x /a 0 9
1 write /a 7 t:end
1 cread x /a 4 1
1 read /a 0 10
";

/// Its calls as they are printed, and the replies on a device that fails nothing.
const PLAYED: [(&str, &str); 10] = [
    ("1.1 100 0 make /a", "Ok"),
    ("1.2 100 0 write /a 0 x:68656c6c6f", "Ok"),
    ("1.3 100 0 read /a 1 3", "Ok x:656c6c"),
    ("1.4 100 0 create c1", "Ok id 1"),
    ("1.5 100 0 write /a 2 x:4c4c", "Ok"),
    ("1.6 100 0 mount x c1", "Ok"),
    ("1.7 100 0 cread x /a 0 9", "Ok x:68656c6c6f"),
    ("1.8 100 0 write /a 7 x:656e64", "Ok"),
    ("1.9 100 0 cread x /a 4 1", "Ok x:6f"),
    ("1.10 100 0 read /a 0 10", "Ok x:68654c4c6f0000656e64"),
];

/// The reply at a place, from 0, where the one at another is this fault and the last one is this, which each reply behind a
/// failed write is.
fn reply_at<'a>(at: usize, whole: &'a str, place: usize, fault: &'a str, last: &'a str) -> &'a str {
    if at == place {
        fault
    } else if at == 9 || (place < at && fault == "WriteFault") {
        last
    } else {
        whole
    }
}

fn printed_with(alloc: Global, place: usize, fault: &str, last: &str) -> Result<Vec<u8>, NoMemory> {
    let mut text = Vec::new(alloc);
    for (at, (call, whole)) in PLAYED.iter().enumerate() {
        for part in [*call, " = ", reply_at(at, *whole, place, fault, last), "\n"] {
            text.extend_from_slice(part.as_bytes())?;
        }
    }
    Ok(text)
}

// Opening makes twelve calls: a sync, and reads of the header, the gate and the nine blocks of the table. The commit at the
// end makes twelve: those nine blocks, a sync, the gate, a sync.
#[test]
fn meets_each_fault_of_the_device(rt: HostRuntime) -> Result<(), Fail> {
    let alloc = rt.alloc();
    let whole = "Ok x:68654c4c6f0000656e64";
    let made = volume(alloc)?;
    for (failing, place, fault, last, status) in [
        (13, 1, "WriteFault", "Broken 1", 5),
        (14, 2, "ReadFault", whole, 0),
        (15, 4, "ReadFault", "Ok x:68656c6c6f0000656e64", 0),
        (16, 4, "WriteFault", "Broken 4", 5),
        (17, 6, "ReadFault", whole, 0),
        (18, 7, "ReadFault", "Ok x:68654c4c6f", 0),
        (19, 7, "WriteFault", "Broken 7", 5),
        (20, 8, "ReadFault", whole, 0),
        (21, 9, "ReadFault", "", 0),
        (22, 10, "", whole, 5),
        (33, 10, "", whole, 5),
        (34, 10, "", whole, 0),
    ] {
        let ended = play_on(alloc, FAULTY, copy_of(alloc, &made, &[failing])?)?;
        let printed = printed_with(alloc, place, fault, last)?;
        let line: &[u8] = if status == 5 { b"device fault\n" } else { b"" };
        assert!(rt; ended.has(status, &printed, line), "{failing}");
    }
    Ok(())
}

#[test]
fn meets_each_fault_of_an_opening(rt: HostRuntime) -> Result<(), Fail> {
    let alloc = rt.alloc();
    let made = volume(alloc)?;
    for failing in [1, 2, 3, 4, 12] {
        let ended = play_on(alloc, FAULTY, copy_of(alloc, &made, &[failing])?)?;
        assert!(rt; ended.has(5, b"", b"device fault\n"), "{failing}");
    }
    Ok(())
}

const FIRST_BROKEN: &[u8] = b"1.1 100 0 make /a = Ok
1.2 100 0 write /a 0 x:68656c6c6f = WriteFault
1.3 100 0 create c1 = Broken 1
1.4 100 0 write /a 0 x:48454c4c4f = Broken 1
1.5 100 0 mount x c1 = Broken 1
1.6 100 0 cread x /a 0 5 = Broken 1
";

// Also where the transcript can't be printed.
#[test]
fn says_that_a_write_was_lost(rt: HostRuntime) -> Result<(), Fail> {
    let alloc = rt.alloc();
    let made = volume(alloc)?;
    for (print, printed) in [(0, FIRST_BROKEN), (1, b"")] {
        let script = source(alloc, FIRST, &[])?;
        let disk = copy_of(alloc, &made, &[13])?;
        let ended = run_on(alloc, &["play"], script, &[print], disk)?;
        assert!(rt; ended.has(5, printed, b"device fault\n"));
    }
    Ok(())
}

/// The first of these writes meets the fault.
const EDGE: &[u8] = b"1 make /a
1 fill /a 0 8192 61
1 write /a 4094 t:edge
1 read /a 4092 8
1 write /a 4094 t:edge
1 read /a 4092 8
";

const EDGE_NOT_READ: &[u8] = b"1.1 100 0 make /a = Ok
1.2 100 0 fill /a 0 8192 61 = Ok
1.3 100 0 write /a 4094 x:65646765 = ReadFault
1.4 100 0 read /a 4092 8 = Ok x:6161616161616161
1.5 100 0 write /a 4094 x:65646765 = Ok
1.6 100 0 read /a 4092 8 = Ok x:6161656467656161
";

const EDGE_NOT_WRITTEN: &[u8] = b"1.1 100 0 make /a = Ok
1.2 100 0 fill /a 0 8192 61 = Ok
1.3 100 0 write /a 4094 x:65646765 = WriteFault
1.4 100 0 read /a 4092 8 = Broken 2
1.5 100 0 write /a 4094 x:65646765 = Broken 2
1.6 100 0 read /a 4092 8 = Broken 2
";

// Opening makes twelve calls of the device and the fill two. Of the write's four, the second block's read is the third.
#[test]
fn meets_faults_at_the_second_block(rt: HostRuntime) -> Result<(), Fail> {
    let alloc = rt.alloc();
    let made = volume(alloc)?;
    for (failing, status, printed, line) in [
        (17, 0, EDGE_NOT_READ, b"".as_slice()),
        (18, 5, EDGE_NOT_WRITTEN, b"device fault\n"),
    ] {
        let ended = play_on(alloc, EDGE, copy_of(alloc, &made, &[failing])?)?;
        assert!(rt; ended.has(status, printed, line), "{failing}");
    }
    Ok(())
}
