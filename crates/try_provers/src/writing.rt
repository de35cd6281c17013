//! A search hands out lines, but the checker of LRAT reads text. `answers` puts a log's text behind
//! the clauses to have it judged, or gives it to `main` to be printed; a model becomes a comment.
use anyhow::Result;
use jd_propagate::Line;

/// The digits of a number, and a blank.
fn put(out: &mut Vec<u8>, number: i64) -> Result<()> {
    let mut buffer = itoa::Buffer::new();
    out.extend_from_slice(buffer.format(number).as_bytes())?;
    out.push(b' ')?;
    Ok(())
}

fn put_line(out: &mut Vec<u8>, line: &Line) -> Result<()> {
    if let Line::Derive { id, clause, hints } = line {
        put(out, (*id).min(i64::MAX as u64) as i64)?;
        for l in clause.literals() {
            put(out, i64::from(*l))?;
        }
        out.extend_from_slice(b"0 ")?;
        for hint in hints.hints() {
            put(out, *hint)?;
        }
        out.extend_from_slice(b"0\n")?;
    }
    Ok(())
}

/// The lines of a log in LRAT form.
pub fn put_lines(out: &mut Vec<u8>, lines: &[Line]) -> Result<()> {
    for line in lines {
        put_line(out, line)?;
    }
    Ok(())
}

/// A comment with the values of a model.
pub fn put_bits(out: &mut Vec<u8>, bits: &[bool]) -> Result<()> {
    out.extend_from_slice(b"c model ")?;
    for bit in bits {
        out.push(if *bit { b'1' } else { b'0' })?;
    }
    out.push(b'\n')?;
    Ok(())
}
