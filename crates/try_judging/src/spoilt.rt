//! What `judge` wrote, spoilt in two ways that `check` refuses: cut off after half of its lines, and with
//! its first derivation line without the hint that gives the conflict.
use std::alloc::{AllocError, Global};

/// A text, and what `check` is to write of it.
#[derive(Drop)]
pub struct Spoilt {
    pub text: Vec<u8>,
    pub due: Vec<u8>,
}

fn push_line(text: &mut Vec<u8>, line: &str) -> Result<(), AllocError> {
    text.extend_from_slice(line.as_bytes())?;
    text.push(b'\n')?;
    Ok(())
}

/// The first half of a text's lines. The line after them is bad.
pub fn first_half(alloc: Global, text: &str) -> Result<Spoilt, AllocError> {
    let half = text.lines().count() / 2;
    let mut front = Vec::new(alloc);
    for line in text.lines().take(half) {
        push_line(&mut front, line)?;
    }
    let bad = half.saturating_add(1);
    let due = format!(in alloc; "bad line {bad}\n")?;
    Ok(Spoilt {
        text: front,
        due: due.into_bytes(),
    })
}

/// Goes from a node to the next in preorder: the last no of its path becomes yes.
fn turn(path: &mut Vec<u8>) -> Result<(), AllocError> {
    for _ in 0..path.len() {
        if path.pop() == Some(b'0') {
            break;
        }
    }
    path.push(b'1')?;
    Ok(())
}

/// A derivation line without its last hint.
fn without_last_hint(line: &str) -> &str {
    let front = line.strip_suffix(" 0").unwrap_or(line);
    match front.rsplit_once(" ") {
        Some((rest, _)) => rest,
        None => front,
    }
}

/// Takes a line of the certificate: it leads to another path, or is the first derivation line.
fn is_derivation(path: &mut Vec<u8>, line: &str) -> Result<bool, AllocError> {
    match line {
        "certificate 1" | "leaf" | "cut" => {}
        "fork" => path.push(b'0')?,
        "end" => turn(path)?,
        _ => return Ok(true),
    }
    Ok(false)
}

/// A problem and a certificate whose first derivation line lacks its last hint, which gives the conflict.
pub fn without_conflict(
    alloc: Global,
    problem: &str,
    certificate: &str,
) -> Result<Spoilt, AllocError> {
    let mut text = Vec::from_slice(alloc, problem.as_bytes())?;
    let mut path = Vec::new(alloc);
    let mut found = false;
    for line in certificate.lines() {
        if !found && is_derivation(&mut path, line)? {
            found = true;
            text.extend_from_slice(without_last_hint(line).as_bytes())?;
            text.extend_from_slice(b" 0\n")?;
        } else {
            push_line(&mut text, line)?;
        }
    }
    if path.is_empty() {
        path.push(b'-')?;
    }
    let mut due = Vec::from_slice(alloc, b"bad ")?;
    due.extend_from_slice(path.as_slice())?;
    due.extend_from_slice(b" 1 NoConflict\n")?;
    Ok(Spoilt { text, due })
}
