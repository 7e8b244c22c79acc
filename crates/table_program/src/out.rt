//! The text that is written.

use dn_guest::Bytes;
use dn_text::{push_decimal, push_hex};
use std::alloc::Global;

/// A text that grows. It keeps in mind whether memory was short, so that this is asked once a line.
#[derive(Drop)]
pub struct Out {
    bytes: Bytes,
    is_short: bool,
}

impl Out {
    /// An empty text.
    pub fn new(alloc: Global) -> Out {
        Out {
            bytes: Bytes::new(alloc),
            is_short: false,
        }
    }

    /// The text.
    pub fn as_slice(&self) -> &[u8] {
        self.bytes.as_slice()
    }

    /// Whether some piece isn't there because memory was short.
    pub fn is_short(&self) -> bool {
        self.is_short
    }

    /// Appends these bytes.
    pub fn append(&mut self, bytes: &[u8]) {
        self.is_short |= self.bytes.append(bytes).is_err();
    }

    /// Appends the text.
    pub fn text(&mut self, text: &str) {
        self.append(text.as_bytes());
    }

    /// Appends the text if it holds.
    pub fn flag(&mut self, holds: bool, text: &str) {
        if holds {
            self.text(text);
        }
    }

    /// Appends the text and the number's digits.
    pub fn number(&mut self, text: &str, number: u64) {
        self.text(text);
        self.is_short |= push_decimal(&mut self.bytes, number).is_err();
    }

    /// Appends the text and two hexadecimal digits a byte.
    pub fn hex(&mut self, text: &str, bytes: &[u8]) {
        self.text(text);
        self.is_short |= push_hex(&mut self.bytes, bytes).is_err();
    }

    /// Appends the text and the address, four numbers with dots between.
    pub fn address(&mut self, text: &str, address: u32) {
        let [a, b, c, d] = address.to_be_bytes();
        self.number(text, u64::from(a));
        self.number(".", u64::from(b));
        self.number(".", u64::from(c));
        self.number(".", u64::from(d));
    }
}
