//! Lines as they come from a source in memory.
use hp_io::MemSource;
use jd_lines::{LineStop, SourceLines};
use std::alloc::Global;
use std::test::Fail;

/// Takes the lines of a text, and counts them and their bytes; then why no further line is had.
fn counted(
    alloc: Global,
    text: &[u8],
    limit: u64,
    fails: Vec<u64>,
) -> Result<(u64, Option<LineStop>), Fail> {
    let mut source = MemSource::new(Vec::from_slice(alloc, text)?, fails);
    let mut lines = SourceLines::new(alloc, limit);
    let mut sum: u64 = 0;
    for _ in 0..100 {
        match lines.advance(&mut source) {
            Ok(true) => sum = sum
                .wrapping_add(1000)
                .wrapping_add(lines.line().len() as u64),
            Ok(false) => return Ok((sum, None)),
            Err(stop) => return Ok((sum, Some(stop))),
        }
    }
    Ok((sum, None))
}

#[test]
fn lines_of_texts(rt: HostRuntime) -> Result<(), Fail> {
    let alloc = rt.alloc();
    for (text, limit, fails, want) in [
        ("", 0, 0, (0, None)),
        ("ab\n\ncde", 8, 0, (3005, None)),
        ("ab\n\ncde\n", 9, 0, (3005, None)),
        ("ab\n\ncde\n", 7, 0, (0, Some(LineStop::TooLong))),
        ("ab\n", 8, 2, (1002, Some(LineStop::Failed))),
    ] {
        let fails = vec![in alloc; fails]?;
        assert_eq!(rt;
            counted(alloc, text.as_bytes(), limit, fails)?,
            want,
            "{text}"
        );
    }
    Ok(())
}
