// Nibbles in bytes: the digits to the base 16 of registers.
ghost use Rattle.std.specs.Prelude.{◌≡◌, ℕ, ◌+◌, ◌*◌, ◌/◌, ◌%◌, ◌^◌, ◌<◌, ◌≤◌, ◌≢◌, All, length, slice_index, nat_lt, if◌then◌else◌};
ghost use Rattle.hp_model.specs.Memory.{nibble_sum};
ghost use Rattle.hp_nibbles.specs.Bytes.{nibble_at};
ghost use Rattle.hp_nibbles.specs.Written.{written_at, paired_byte};

use crate::{NIBBLES, ROOM};

/// Puts a nibble into its half of its byte.
fn put_nibble(bytes: &mut [u8; ROOM], j: usize, nibble: u8)
    requires inside { j < NIBBLES }
    requires digit { nibble < 16 }
    ensures here { nibble_at bytes.new j ≡ nibble }
    ensures others { (i : ℕ) → i ≢ j → nibble_at bytes.new i ≡ nibble_at bytes.old i }
{
    let place = j / 2;
    let byte = bytes[place];
    bytes[place] = if j % 2 == 0 {
        byte / 16 * 16 + nibble
    } else {
        byte % 16 + nibble * 16
    };
}

/// Puts both nibbles of a byte.
fn put_byte(bytes: &mut [u8; ROOM], place: usize, byte: u8)
    requires { place < ROOM }
    ensures lower { nibble_at bytes.new (2 * place) ≡ byte % 16 }
    ensures upper { nibble_at bytes.new (2 * place + 1) ≡ byte / 16 }
    ensures others { (i : ℕ) → i / 2 ≢ place → nibble_at bytes.new i ≡ nibble_at bytes.old i }
{
    bytes[place] = byte;
}

/// Writes the lowest digits of a number, two a byte.
fn write_bytes(bytes: &mut [u8; ROOM], from: usize, count: usize, v: u64)
    requires inside { from + count ≤ ROOM }
    requires few { count ≤ 8 }
    ensures { (i : ℕ) → nibble_at bytes.new i ≡ written_at bytes.old (2 * from) (2 * count) v i }
{
    for j in 0..count {
        put_byte(bytes, from + j, (v >> (8 * j) & 255) as u8);
    }
}

/// Writes the lowest digits of a number, from the lower half of a byte on.
fn write_from_byte(bytes: &mut [u8; ROOM], from: usize, count: usize, v: u64)
    requires inside { 2 * from + count ≤ NIBBLES }
    requires digits { count ≤ 16 }
    ensures { (i : ℕ) → nibble_at bytes.new i ≡ written_at bytes.old (2 * from) count v i }
{
    write_bytes(bytes, from, count / 2, v);
    if count % 2 == 1 {
        put_nibble(
            bytes,
            2 * from + count - 1,
            (v >> (4 * (count - 1)) & 15) as u8,
        );
    }
}

/// Writes the lowest digits of a number, from a nibble on.
pub fn write_nibbles(bytes: &mut [u8; ROOM], first: usize, count: usize, v: u64)
    requires inside { first + count ≤ NIBBLES }
    requires some { 1 ≤ count }
    requires digits { count ≤ 16 }
    ensures { (i : ℕ) → nibble_at bytes.new i ≡ written_at bytes.old first count v i }
{
    if first % 2 == 0 {
        write_from_byte(bytes, first / 2, count, v);
    } else {
        put_nibble(bytes, first, (v & 15) as u8);
        write_from_byte(bytes, first / 2 + 1, count - 1, v >> 4);
    }
}

/// The number in so many bytes, the lowest first.
fn read_bytes(bytes: &[u8; ROOM], from: usize, count: usize) -> u128
    requires inside { from + count ≤ ROOM }
    requires few { count ≤ 9 }
    ensures { result ≡ nibble_sum (λ i. nibble_at bytes.now (2 * from + i)) (2 * count) }
{
    let mut number: u128 = 0;
    for j in 0..count {
        number += (bytes[from + j] as u128) << (8 * j);
    }
    number
}

/// The number whose lowest digits are so many nibbles from one on. One more digit may stand above them.
pub fn read_nibbles(bytes: &[u8; ROOM], first: usize, count: usize) -> u128
    requires inside { first + count ≤ NIBBLES }
    requires digits { count ≤ 16 }
    ensures { result % 16 ^ count ≡ nibble_sum (λ i. nibble_at bytes.now (first + i)) count % 16 ^ count }
{
    let half = first % 2;
    read_bytes(bytes, first / 2, (half + count + 1) / 2) >> (4 * half)
}

/// Fills the first bytes with nibbles, two a byte.
pub fn put_digits(bytes: &mut [u8; ROOM], nibbles: &[u8])
    requires inside { length nibbles.now ≤ NIBBLES }
    requires digits { All (λ nibble. nibble < 16) nibbles.now }
    ensures { (b : ℕ) → slice_index bytes.new b ≡ (if nat_lt b (length nibbles.now / 2) then paired_byte nibbles.now b else slice_index bytes.old b) }
{
    for b in 0..nibbles.len() / 2 {
        bytes[b] = nibbles[2 * b] + 16 * nibbles[2 * b + 1];
    }
}
