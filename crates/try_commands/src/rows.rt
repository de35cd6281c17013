//! How a data file tells a run: the command's words and input, the calls that are to fail, and the
//! status, the output and what is kept that are due. `runs` does what a row says; lines with other names are passed
//! over.
use std::alloc::{AllocError, Global};

/// A command, and what is to come of it. No call has the number 0.
#[derive(Drop)]
pub struct Row {
    pub title: String,
    pub words: Vec<String>,
    pub input: Vec<u8>,
    /// The source gives a 1 and a line feed for ever, in place of the input.
    pub endless: bool,
    /// How many allocations are to go before the run.
    pub before: u64,
    pub failing_read: u64,
    pub failing_write: u64,
    pub status: u8,
    pub output: Vec<u8>,
    /// The output begins so, and how it goes on isn't said: a start that the judge finds is one of many.
    pub begins: bool,
    /// What is kept, where it is said.
    pub kept: Option<String>,
    pub next: Option<u8>,
}

fn new_row(alloc: Global, title: &str) -> Result<Row, AllocError> {
    Ok(Row {
        title: String::from_str(alloc, title)?,
        words: Vec::new(alloc),
        input: Vec::new(alloc),
        endless: false,
        before: 0,
        failing_read: 0,
        failing_write: 0,
        status: 0,
        output: Vec::new(alloc),
        begins: false,
        kept: None,
        next: None,
    })
}

// The byte that stands after a backslash in a row.
fn escaped(byte: u8) -> u8 {
    match byte {
        b'n' => b'\n',
        b't' => b'\t',
        b'r' => b'\r',
        b's' => b' ',
        other => other,
    }
}

// Appends the bytes that a text says, in which a backslash stands before an n, t, r or s.
fn push_text(bytes: &mut Vec<u8>, text: &str) -> Result<(), AllocError> {
    let mut after_backslash = false;
    for byte in text.as_bytes() {
        if after_backslash {
            bytes.push(escaped(*byte))?;
            after_backslash = false;
        } else if *byte == b'\\' {
            after_backslash = true;
        } else {
            bytes.push(*byte)?;
        }
    }
    Ok(())
}

// Appends a text as often as the number before it says.
fn push_times(bytes: &mut Vec<u8>, line: &str) -> Result<(), AllocError> {
    if let Some((count, text)) = line.split_once(" ") {
        for _ in 0..count.parse::<u32>().unwrap_or(0) {
            push_text(bytes, text)?;
        }
    }
    Ok(())
}

fn push_words(words: &mut Vec<String>, alloc: Global, line: &str) -> Result<(), AllocError> {
    for word in line.split(" ") {
        words.push(String::from_str(alloc, word)?)?;
    }
    Ok(())
}

// Takes a line of a row: what it is about, a blank, and what it says. `times` and `repeated` have a
// number before a text of the input and of the output.
fn take_line(alloc: Global, row: &mut Row, line: &str) -> Result<(), AllocError> {
    let (name, rest) = line.split_once(" ").unwrap_or((line, ""));
    match name {
        "words" => push_words(&mut row.words, alloc, rest)?,
        "input" => push_text(&mut row.input, rest)?,
        "times" => push_times(&mut row.input, rest)?,
        "endless" => row.endless = true,
        "before" => row.before = rest.parse().unwrap_or(0),
        "output" => push_text(&mut row.output, rest)?,
        "begins" => {
            row.begins = true;
            push_text(&mut row.output, rest)?;
        }
        "kept" => row.kept = Some(String::from_str(alloc, rest)?),
        "repeated" => push_times(&mut row.output, rest)?,
        "read" => row.failing_read = rest.parse().unwrap_or(0),
        "write" => row.failing_write = rest.parse().unwrap_or(0),
        "status" => row.status = rest.parse().unwrap_or(0),
        "next" => row.next = rest.as_bytes().first().copied(),
        _ => {}
    }
    Ok(())
}

/// The rows of a text.
pub fn read_rows(alloc: Global, text: &str) -> Result<Vec<Row>, AllocError> {
    let mut rows: Vec<Row> = Vec::new(alloc);
    for line in text.lines() {
        if let Some(title) = line.strip_prefix("row ") {
            rows.push(new_row(alloc, title)?)?;
        } else if let Some(row) = rows.last_mut() {
            take_line(alloc, row, line)?;
        }
    }
    Ok(rows)
}
