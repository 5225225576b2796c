// The lines of a listing, with their dates.
use ck_model::{CkptLine, NameBytes, State};
use ck_report::listing;
use std::test::Fail;

const LISTED: &[u8] = b"1 data keep 1970-01-01T00:00:00Z c:1
2 nodata removable 2000-02-28T23:59:59Z c:1
3 delayed removable 2023-11-14T22:13:20Z c:1
64 data removable 9987-04-02T17:46:40Z c:1
65 data keep @253000000001 c:1
4294967294 nodata keep @18446744073709551615 c:1
";

#[test]
fn checkpoints_are_listed_in_order(rt: HostRuntime) -> Result<(), Fail> {
    let name = NameBytes::read(b"c:1").ok_or("no name")?;
    let mut lines = Vec::new(rt.alloc());
    for (id, state, removable, ctime) in [
        (1, State::Keeping, false, 0),
        (2, State::Nodata, true, 951_782_399),
        (3, State::Delayed, true, 1_700_000_000),
        (64, State::Keeping, true, 253_000_000_000),
        (65, State::Keeping, false, 253_000_000_001),
        (4_294_967_294, State::Nodata, false, u64::MAX),
    ] {
        lines.push(CkptLine {
            id,
            state,
            removable,
            ctime,
            name,
        })?;
    }
    assert!(rt; listing(rt.alloc(), &lines)?.as_slice() == LISTED);
    Ok(())
}
