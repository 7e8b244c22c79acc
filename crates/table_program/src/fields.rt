//! The words of a line, one space between two.

ghost use Rattle.std.specs.Prelude.{◌≤◌};

use dn_guest::{Bytes, NoMemory};
use dn_text::{decimal, first_part, unhex};
use std::alloc::Global;

/// The words that are left of a line. A word that isn't there, or isn't what is asked for, is noted, and something
/// is answered in its place.
#[derive(Drop)]
pub struct Fields<'a> {
    words: Vec<&'a [u8]>,
    is_wrong: bool,
}

impl<'a> Fields<'a> {
    /// The words of the line, without its newline.
    pub fn new(alloc: Global, line: &'a [u8]) -> Result<Fields<'a>, NoMemory> {
        let text = line.strip_suffix(b"\n").unwrap_or(line);
        let mut words = Vec::new(alloc);
        for word in text.split(|byte| *byte == b' ') {
            words.push(word)?;
        }
        Ok(Fields {
            words,
            is_wrong: false,
        })
    }

    /// Whether no word is left.
    pub fn is_done(&self) -> bool {
        self.words.is_empty()
    }

    /// Whether no word is left, and each was what was asked for.
    pub fn is_read(&self) -> bool {
        self.words.is_empty() && !self.is_wrong
    }

    /// Notes that the line can't be read.
    pub fn refuse(&mut self) {
        self.is_wrong = true;
    }

    /// The next word.
    pub fn word(&mut self) -> &'a [u8] {
        if self.words.is_empty() {
            self.is_wrong = true;
            return &[];
        }
        self.words.remove(0)
    }

    /// The place of this word; past all if it isn't there.
    fn place(&self, word: &[u8]) -> usize {
        for (place, other) in self.words.iter().enumerate() {
            if *other == word {
                return place;
            }
        }
        self.words.len()
    }

    /// Whether the next word is this one; then it is taken.
    pub fn takes(&mut self, word: &[u8]) -> bool {
        let is_next = !self.words.is_empty() && self.words[0] == word;
        if is_next {
            self.words.remove(0);
        }
        is_next
    }

    /// Whether this word is left; then it is taken.
    pub fn has(&mut self, word: &[u8]) -> bool {
        let place = self.place(word);
        let is_left = place < self.words.len();
        if is_left {
            self.words.remove(place);
        }
        is_left
    }

    /// The word behind this one, if it is left; both are taken.
    pub fn behind(&mut self, name: &[u8]) -> Option<&'a [u8]> {
        let place = self.place(name);
        if place >= self.words.len() {
            return None;
        }
        self.words.remove(place);
        if place >= self.words.len() {
            self.is_wrong = true;
            return None;
        }
        Some(self.words.remove(place))
    }

    /// The decimal number of at most `most` that the word says.
    pub fn number_of(&mut self, word: &[u8], most: u64) -> u64
        ensures { result ≤ most }
    {
        match decimal(word) {
            Some(number) if number <= most => number,
            _ => {
                self.is_wrong = true;
                0
            }
        }
    }

    /// The number of at most `most` that the word says in hexadecimal.
    pub fn hex_of(&mut self, word: &[u8], most: u64) -> u64
        ensures { result ≤ most }
    {
        match hexadecimal(word) {
            Some(number) if number <= most => number,
            _ => {
                self.is_wrong = true;
                0
            }
        }
    }

    /// The address that the word says: four decimal numbers with dots between.
    pub fn address_of(&mut self, word: &[u8]) -> u32 {
        let mut address = 0u32;
        for part in word.split(|byte| *byte == b'.') {
            let byte = self.number_of(part, 255) as u32;
            address = address.wrapping_mul(256).wrapping_add(byte);
        }
        address
    }

    /// The bytes that the word says in hexadecimal; no bytes if it is `none`.
    pub fn bytes_of(&mut self, alloc: Global, word: &[u8]) -> Result<Bytes, NoMemory> {
        if word == b"none".as_slice() {
            return Ok(Bytes::new(alloc));
        }
        let Some(bytes) = unhex(alloc, word)? else {
            self.is_wrong = true;
            return Ok(Bytes::new(alloc));
        };
        Ok(bytes)
    }

    /// The next word, a decimal number of at most `most`.
    pub fn number(&mut self, most: u64) -> u64
        ensures { result ≤ most }
    {
        let word = self.word();
        self.number_of(word, most)
    }

    /// The next word, a number of 8 bits.
    pub fn byte(&mut self) -> u8 {
        self.number(255) as u8
    }

    /// The next word, a number of 16 bits.
    pub fn short(&mut self) -> u16 {
        self.number(65_535) as u16
    }

    /// The next word, a number of 32 bits.
    pub fn long(&mut self) -> u32 {
        self.number(0xffff_ffff) as u32
    }

    /// The next word, an address and a length: `A.B.C.D/LEN`.
    pub fn network(&mut self) -> (u32, u8) {
        let (address, len) = first_part(b'/', self.word());
        let address = self.address_of(address);
        (address, self.number_of(len.unwrap_or(&[]), 255) as u8)
    }

    /// The next word, bytes in hexadecimal; no bytes if no word is left.
    pub fn bytes(&mut self, alloc: Global) -> Result<Bytes, NoMemory> {
        if self.words.is_empty() {
            return Ok(Bytes::new(alloc));
        }
        let word = self.word();
        self.bytes_of(alloc, word)
    }
}

/// The number that the digits say, the highest first, modulo 2^64; None where one is no digit.
fn hexadecimal(word: &[u8]) -> Option<u64> {
    let mut number = 0u64;
    for byte in word {
        number = number.wrapping_mul(16).wrapping_add(digit(*byte)?);
    }
    Some(number)
}

/// The value of a hexadecimal digit.
fn digit(byte: u8) -> Option<u64> {
    match byte {
        b'0'..=b'9' => Some(u64::from(byte - b'0')),
        b'a'..=b'f' => Some(u64::from(byte - b'a') + 10),
        _ => None,
    }
}
