//! Marks in pages: a page is made where a mark in it is first set, so that marks far apart take little
//! memory. Each mark is a bit of a word.
ghost use Rattle.std.specs.Prelude.{◌≡◌, ℕ, ◌+◌, ◌<◌, ◌/◌, ◌%◌, true, false, OnOk, ◌≢◌, ◌⊎◌, ◌≤◌, length, slice_index};
ghost use Rattle.jd_lrat.specs.Marked.{bit_of, mark_at, page_length};

use crate::NoMemory;
use std::alloc::Global;

/// How many marks a page has.
pub const PAGE: usize = 65536;

/// How many words a page has.
const WORDS: usize = 1024;

/// Whether a bit of some words is 1.
fn is_bit(words: &[u64], place: usize) -> bool
    ensures { result ≡ bit_of words.now place }
{
    if place / 64 < words.len() {
        (words[place / 64] >> (place % 64)) & 1 == 1
    } else {
        false
    }
}

pub fn is_marked(pages: &[Vec<u64>], page: usize, place: usize) -> bool
    ensures { result ≡ mark_at pages.now page place }
{
    if page < pages.len() {
        is_bit(&pages[page], place)
    } else {
        false
    }
}

/// Makes room for a mark, and changes none.
fn make_room(alloc: Global, pages: &mut Vec<Vec<u64>>, page: usize) -> Result<(), NoMemory>
    ensures kept { (p i : ℕ) → mark_at pages.new.items p i ≡ mark_at pages.old.items p i }
    ensures room { OnOk result (page < length pages.new.items) }
{
    while pages.len() <= page {
        match pages.push(Vec::new(alloc)) {
            Ok(()) => {}
            Err(_) => return Err(NoMemory),
        }
    }
    Ok(())
}

/// Fills a page with words that are 0, where it is shorter than so many.
fn fill_page(words: &mut Vec<u64>, count: usize) -> Result<(), NoMemory>
    ensures kept { (i : ℕ) → slice_index words.new.items i ≡ slice_index words.old.items i }
    ensures room { OnOk result (count ≤ length words.new.items) }
{
    if words.len() < count {
        match words.resize(count, 0) {
            Ok(()) => Ok(()),
            Err(_) => Err(NoMemory),
        }
    } else {
        Ok(())
    }
}

/// Sets one mark, and keeps all others.
pub fn set_mark(pages: &mut Vec<Vec<u64>>, page: usize, place: usize)
    requires { place / 64 < page_length pages.old.items page }
    ensures here { mark_at pages.new.items page place ≡ true }
    ensures others { (p i : ℕ) → (p ≢ page) ⊎ (i ≢ place) → mark_at pages.new.items p i ≡ mark_at pages.old.items p i }
{
    let words = &mut pages[page];
    words[place / 64] |= 1 << (place % 64);
}

/// Clears one mark, and keeps all others.
fn clear_mark(pages: &mut Vec<Vec<u64>>, page: usize, place: usize)
    requires { place / 64 < page_length pages.old.items page }
    ensures here { mark_at pages.new.items page place ≡ false }
    ensures others { (p i : ℕ) → (p ≢ page) ⊎ (i ≢ place) → mark_at pages.new.items p i ≡ mark_at pages.old.items p i }
{
    let words = &mut pages[page];
    words[place / 64] &= !(1 << (place % 64));
}

/// Makes room for one mark, and changes none.
pub fn make_place(
    alloc: Global,
    pages: &mut Vec<Vec<u64>>,
    page: usize,
    place: usize,
) -> Result<(), NoMemory>
    requires { place < 65536 }
    ensures kept { (p i : ℕ) → mark_at pages.new.items p i ≡ mark_at pages.old.items p i }
    ensures room { OnOk result (place / 64 < page_length pages.new.items page) }
{
    make_room(alloc, pages, page)?;
    fill_page(&mut pages[page], WORDS)?;
    Ok(())
}

/// Takes one mark away, and keeps all others.
pub fn unset_mark(pages: &mut Vec<Vec<u64>>, page: usize, place: usize)
    ensures here { mark_at pages.new.items page place ≡ false }
    ensures others { (p i : ℕ) → (p ≢ page) ⊎ (i ≢ place) → mark_at pages.new.items p i ≡ mark_at pages.old.items p i }
{
    if is_marked(pages, page, place) {
        clear_mark(pages, page, place);
    }
}
