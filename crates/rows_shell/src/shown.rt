// Answers as they are printed.
use crate::failed::Failed;
use std::alloc::Global;
use value_bytes::{Bytes, BytesList};
use value_headers::{HeaderList, PackedHeaders};

/// A text that an answer is written into. Where it is refused memory, or is told of a failure, it has failed from then
/// on: so what writes into it need not look after each piece.
#[derive(Drop)]
pub struct Shown {
    alloc: Global,
    text: Bytes,
    has_failed: bool,
}

impl Shown {
    /// The empty text.
    pub fn new(alloc: Global) -> Shown {
        Shown {
            alloc,
            text: Bytes::new(alloc),
            has_failed: false,
        }
    }

    /// The allocator of the text.
    pub fn alloc(&self) -> Global {
        self.alloc
    }

    /// The text, unless it has failed.
    pub fn into_bytes(self) -> Result<Bytes, Failed> {
        if self.has_failed {
            return Err(Failed);
        }
        Ok(self.text)
    }

    /// Fails.
    pub fn fail(&mut self) {
        self.has_failed = true;
    }

    /// Adds a piece.
    pub fn add(&mut self, piece: &[u8]) {
        if self.text.append(piece).is_err() {
            self.has_failed = true;
        }
    }

    /// Adds a byte, or fails where there is none.
    pub fn add_byte(&mut self, byte: Option<u8>) {
        match byte {
            Some(byte) => self.add(&[byte]),
            None => self.has_failed = true,
        }
    }

    /// Adds a number.
    pub fn add_number(&mut self, number: u64) {
        match number.to_string(self.alloc) {
            Ok(digits) => self.add(digits.as_bytes()),
            Err(_) => self.has_failed = true,
        }
    }

    /// Adds a word and a number.
    pub fn add_count(&mut self, word: &[u8], count: usize) {
        self.add(word);
        self.add_number(count as u64);
    }

    /// Adds `yes` or `no`.
    pub fn add_yes_or_no(&mut self, answer: bool) {
        self.add(if answer { b"yes" } else { b"no" });
    }

    /// Adds a text, with CR, LF, tab and a backslash written as `\r`, `\n`, `\t` and `\\`.
    pub fn add_escaped(&mut self, text: &[u8]) {
        for byte in text {
            match *byte {
                b'\r' => self.add(b"\\r"),
                b'\n' => self.add(b"\\n"),
                b'\t' => self.add(b"\\t"),
                b'\\' => self.add(b"\\\\"),
                byte => self.add(&[byte]),
            }
        }
    }

    /// Adds a text in quotation marks.
    pub fn add_quoted(&mut self, text: &[u8]) {
        self.add(b"\"");
        self.add_escaped(text);
        self.add(b"\"");
    }

    /// Adds a text in quotation marks, or `none`.
    pub fn add_or_none(&mut self, text: Option<&[u8]>) {
        match text {
            Some(text) => self.add_quoted(text),
            None => self.add(b"none"),
        }
    }

    /// The same of a text of one's own.
    pub fn add_text(&mut self, text: Option<Bytes>) {
        match text {
            Some(text) => self.add_quoted(text.as_slice()),
            None => self.add(b"none"),
        }
    }

    /// Adds a space, a name, a space, and a text in quotation marks.
    pub fn add_part(&mut self, name: &[u8], text: &[u8]) {
        self.add(b" ");
        self.add(name);
        self.add(b" ");
        self.add_quoted(text);
    }

    /// Adds texts with a bar after each.
    pub fn add_texts(&mut self, texts: &[Bytes]) {
        for text in texts {
            self.add_escaped(text.as_slice());
            self.add(b"|");
        }
    }

    /// The same of a list that there may be, or `none`.
    pub fn add_list(&mut self, texts: Option<BytesList>) {
        match texts {
            Some(texts) => self.add_texts(texts.as_slice()),
            None => self.add(b"none"),
        }
    }

    /// Adds the headers of a list with a bar after each.
    pub fn add_headers(&mut self, list: &HeaderList) {
        for header in list.as_slice() {
            self.add_escaped(header.name());
            self.add(b": ");
            self.add_escaped(header.value());
            self.add(b"|");
        }
    }

    /// The same of packed headers.
    pub fn add_packed(&mut self, headers: &PackedHeaders) {
        for index in 0..headers.len() {
            let (name, value) = headers.at(index);
            self.add_escaped(name);
            self.add(b": ");
            self.add_escaped(value);
            self.add(b"|");
        }
    }
}
