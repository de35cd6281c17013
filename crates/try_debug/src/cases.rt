//! Scripts with what is to be written for them. A file of data tells both line by line, as a session shows
//! them.
use std::alloc::{AllocError, Global};

/// A script, and the lines that are to be written for it, or the number of its first bad line.
#[derive(Drop)]
pub struct Case {
    pub title: String,
    pub script: Vec<u8>,
    pub output: Vec<String>,
    pub bad_line: Option<u32>,
}

fn new_case(alloc: Global, title: &str) -> Result<Case, AllocError> {
    Ok(Case {
        title: String::from_str(alloc, title)?,
        script: Vec::new(alloc),
        output: Vec::new(alloc),
        bad_line: None,
    })
}

fn push_line(script: &mut Vec<u8>, line: &str) -> Result<(), AllocError> {
    script.extend_from_slice(line.as_bytes())?;
    script.push(b'\n')?;
    Ok(())
}

/// Takes a line of a case: `bad line N`, or a line of the script and, after ` => `, what is written for it.
fn take_line(alloc: Global, case: &mut Case, line: &str) -> Result<(), AllocError> {
    if let Some(number) = line.strip_prefix("bad line ") {
        case.bad_line = number.parse().ok();
        Ok(())
    } else if let Some((keys, display)) = line.split_once(" => ") {
        push_line(&mut case.script, keys)?;
        case.output.push(String::from_str(alloc, display)?)?;
        Ok(())
    } else if line.is_empty() || line.starts_with("#") {
        Ok(())
    } else {
        push_line(&mut case.script, line)
    }
}

/// The cases of a text, each of which begins with a line `case TITLE`.
pub fn read_cases(alloc: Global, text: &str) -> Result<Vec<Case>, AllocError> {
    let mut cases: Vec<Case> = Vec::new(alloc);
    for line in text.lines() {
        if let Some(title) = line.strip_prefix("case ") {
            cases.push(new_case(alloc, title)?)?;
        } else if let Some(case) = cases.last_mut() {
            take_line(alloc, case, line)?;
        }
    }
    Ok(cases)
}
