// Decimals, hexadecimal digits and bytes, as far as no script has them.
use ck_model::Octets;
use ck_text::{decimal, hex_bytes, put_decimal, put_hex, words};
use std::test::Fail;

#[test]
fn decimals_up_to_the_greatest(rt: HostRuntime) -> Result<(), Fail> {
    for (word, number) in [
        ("0", Some(0)),
        ("10", Some(10)),
        ("18446744073709551615", Some(u64::MAX)),
        ("18446744073709551616", None),
        ("99999999999999999999", None),
        ("", None),
        ("01", None),
        ("+1", None),
        ("1a", None),
    ] {
        assert_eq!(rt; decimal(word.as_bytes()), number, "at {word}");
    }
    let mut out = Vec::new(rt.alloc());
    for number in [0, 7, 10, 1_073_741_824, u64::MAX] {
        put_decimal(&mut out, number)?;
    }
    assert_eq!(rt;
        out.as_slice(),
        b"0710107374182418446744073709551615".as_slice()
    );
    Ok(())
}

#[test]
fn digits_and_words(rt: HostRuntime) -> Result<(), Fail> {
    let bytes = hex_bytes(rt.alloc(), b"009fABfF")?.ok_or("no bytes")?;
    assert_eq!(rt; bytes.as_slice(), [0x00, 0x9f, 0xab, 0xff].as_slice());
    let mut out = Vec::new(rt.alloc());
    put_hex(&mut out, &bytes)?;
    assert_eq!(rt; out.as_slice(), b"009fabff".as_slice());
    let places = words(rt.alloc(), b" 1\tread  /f\t1")?;
    assert_eq!(rt;
        places.as_slice(),
        [(1, 2), (3, 7), (9, 11), (12, 13)].as_slice()
    );
    Ok(())
}

#[test]
fn bytes_are_appended(rt: HostRuntime) -> Result<(), Fail> {
    let mut octets = Octets::of(vec![in rt.alloc(); 1, 2]?);
    octets.append(&[3, 4, 5])?;
    octets.append(&[])?;
    assert_eq!(rt; octets.items(), [1, 2, 3, 4, 5].as_slice());
    Ok(())
}
