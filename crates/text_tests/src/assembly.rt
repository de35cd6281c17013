//! Texts and codes of routines, and the first bad line.
use hp_asm::{AsmCause, AsmFault, CodeFault, assemble, codes, list, read_codes};
use std::test::Fail;

#[test]
fn routines_read_back(rt: HostRuntime) -> Result<(), Fail> {
    let rows = [
        ("LBL 0\nGTO 0\n", "LBL 0\nGTO 0\n", "5C 6C\n"),
        ("\r\n\tSTO  .F \n\nx<>(i)", "STO .F\nx<>(i)\n", "B0 D6\n"),
        ("", "", "\n"),
    ];
    for (text, listed, coded) in rows {
        let routine = assemble(text.as_bytes())?;
        let written = codes(&routine);
        assert_eq!(rt; list(&routine).as_str(), listed);
        assert_eq!(rt; written.as_str(), coded);
        assert_eq!(rt;
            list(&read_codes(written.as_str().as_bytes())?).as_str(),
            listed
        );
    }
    Ok(())
}

#[test]
fn the_first_bad_line_is_told(rt: HostRuntime) -> Result<(), Fail> {
    let rows = [
        ("ENTER\n1/X\n", 2, AsmCause::FloatKey),
        ("enter\n", 1, AsmCause::UnknownWord),
        ("\n\nSTO 10\n", 3, AsmCause::BadOperand),
        ("+ 1\n", 1, AsmCause::BadOperand),
    ];
    for (text, line, cause) in rows {
        assert_eq!(rt;
            assemble(text.as_bytes()).err(),
            Some(AsmFault { line, cause })
        );
    }
    assert_eq!(rt; read_codes(b"E0\n\nE1").err(), Some(CodeFault { line: 3 }));
    assert_eq!(rt; read_codes(b"5C 6C 5").err(), Some(CodeFault { line: 1 }));
    Ok(())
}
