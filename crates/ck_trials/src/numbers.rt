// Numbers in bytes, the highest byte first.
ghost use Rattle.std.specs.Prelude.{◌≡◌, ◌+◌, ◌≤◌, length};

use ck_num::{get_u16, get_u32, get_u64, put_u16, put_u32, put_u64};

#[test]
fn numbers_stand_high_byte_first(rt: HostRuntime) {
    let mut bytes = [0xee; 16];
    put_u16(&mut bytes, 1, 0x1234);
    put_u32(&mut bytes, 3, 0x89ab_cdef);
    put_u64(&mut bytes, 7, 0x0123_4567_fedc_ba98);
    let spelled = [
        0xee, 0x12, 0x34, 0x89, 0xab, 0xcd, 0xef, 0x01, 0x23, 0x45, 0x67, 0xfe, 0xdc, 0xba, 0x98,
        0xee,
    ];
    assert_eq!(rt; bytes, spelled);
    assert_eq!(rt; get_u16(&bytes, 1), 0x1234);
    assert_eq!(rt; get_u32(&bytes, 3), 0x89ab_cdef);
    assert_eq!(rt; get_u64(&bytes, 7), 0x0123_4567_fedc_ba98);
    // Fields may begin anywhere, and end with the bytes.
    assert_eq!(rt; get_u16(&bytes, 14), 0x98ee);
    assert_eq!(rt; get_u32(&bytes, 0), 0xee12_3489);
    assert_eq!(rt; get_u64(&bytes, 8), 0x2345_67fe_dcba_98ee);
}
