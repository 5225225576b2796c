// How a script's calls are numbered, and a script that is generated.
use ck_generate::generate;
use ck_script::parse;
use std::test::Fail;

#[test]
fn calls_have_numbers_and_lines(rt: HostRuntime) -> Result<(), Fail> {
    let text =
        b"1 make /a\n# 1 make /b\n \t\n1\twrite /a  4095 t:x\r\n1 create c\n1 read /a 4096 7";
    let script = parse(rt.alloc(), text).ok().ok_or("refused")?;
    assert!(rt; script.turns.items().is_empty());
    let calls = script.calls.into_vec();
    assert_eq!(rt; calls.len(), 4);
    for ((seq, line), call) in [(1, 1), (2, 4), (3, 5), (4, 6)].iter().zip(calls.iter()) {
        assert_eq!(rt; (call.actor, call.seq, call.line), (1, *seq, *line));
    }
    Ok(())
}

#[test]
fn a_script_is_generated(rt: HostRuntime) -> Result<(), Fail> {
    assert_eq!(rt;
        generate(rt.alloc(), 7, 1, 0)?.as_slice(),
        b"1 make /f1\n1 fill /f1 0 30692 2e\n1 create base\n1 mount a base\n1 full a\n".as_slice()
    );
    Ok(())
}
