// What the lines so far have set.
use crate::spelled::spelled;
use avr_isa::Image;
use std::alloc::Global;
use vg_base::{FLASH_BYTES, NoMemory, Row};
use vg_hex::write;
use vg_io::{File, MemoryShelf, SteadyShelf, find_file, set_file};

/// One put of a sink that is set to fail: its number, and how many bytes of its piece are kept.
#[derive(Clone, Copy)]
pub struct FailingPut {
    pub call: u32,
    pub kept: usize,
}

/// The texts that have a name, the files of two shelves, and how the sinks of the next row fail.
#[derive(Drop)]
pub struct Table {
    pub alloc: Global,
    pub texts: Row<File>,
    pub shelf: MemoryShelf,
    pub steady: SteadyShelf,
    pub out: Option<FailingPut>,
    pub note: Option<FailingPut>,
}

impl Table {
    pub fn new(alloc: Global) -> Self {
        Table {
            alloc,
            texts: Row::new(alloc),
            shelf: MemoryShelf::new(alloc),
            steady: SteadyShelf::new(alloc),
            out: None,
            note: None,
        }
    }

    /// Does what a line that is no row says; false where it says nothing.
    pub fn set(&mut self, kind: &str, words: &str) -> Result<bool, NoMemory> {
        match kind {
            "text" => self.set_text(words),
            "more" => self.extend_text(words),
            "times" => self.set_repeated(words),
            "flash" => self.set_flash(words),
            "shelf" => {
                self.shelf = MemoryShelf::new(self.alloc);
                self.steady = SteadyShelf::new(self.alloc);
                Ok(true)
            }
            "file" => self.set_shelved(words),
            "failing" => self.set_failing(words),
            "out" => {
                self.out = failing_put(words);
                Ok(self.out.is_some())
            }
            "note" => {
                self.note = failing_put(words);
                Ok(self.note.is_some())
            }
            _ => Ok(false),
        }
    }

    // `text NAME REST`: the text that the rest of the line spells, spaces included.
    fn set_text(&mut self, words: &str) -> Result<bool, NoMemory> {
        let Some((name, rest)) = words.split_once(' ') else {
            return Ok(false);
        };
        let Some(text) = spelled(self.alloc, rest)? else {
            return Ok(false);
        };
        set_file(&mut self.texts, self.alloc, name, text.as_slice())?;
        Ok(true)
    }

    // `more NAME REST`: what the rest of the line spells goes behind the text of this name; where it is `@OTHER`, the text of that name does.
    fn extend_text(&mut self, words: &str) -> Result<bool, NoMemory> {
        let Some((name, rest)) = words.split_once(' ') else {
            return Ok(false);
        };
        let Some(more) = self.bytes_of(rest)? else {
            return Ok(false);
        };
        let Some(front) = find_file(&self.texts, name) else {
            return Ok(false);
        };
        let mut text = Row::from_slice(self.alloc, front)?;
        text.append(more.as_slice())?;
        set_file(&mut self.texts, self.alloc, name, text.as_slice())?;
        Ok(true)
    }

    // `times NAME COUNT WORD`: what a word spells, so many times.
    fn set_repeated(&mut self, words: &str) -> Result<bool, NoMemory> {
        let mut words = words.split_whitespace();
        let (Some(name), Some(count), Some(word)) = (words.next(), words.next(), words.next())
        else {
            return Ok(false);
        };
        let (Ok(count), Some(piece)) = (count.parse::<u32>(), spelled(self.alloc, word)?) else {
            return Ok(false);
        };
        let text = repeated(self.alloc, piece.as_slice(), count)?;
        set_file(&mut self.texts, self.alloc, name, text.as_slice())?;
        Ok(true)
    }

    // `flash NAME DIGITS`: the HEX text of a full flash that begins with these bytes, and holds zeros behind them.
    fn set_flash(&mut self, words: &str) -> Result<bool, NoMemory> {
        let Some((name, digits)) = words.split_once(' ') else {
            return Ok(false);
        };
        let Ok(front) = hex::decode(self.alloc, digits) else {
            return Ok(false);
        };
        let Some(image) = full_flash(front)? else {
            return Ok(false);
        };
        let text = write(self.alloc, &image)?;
        set_file(&mut self.texts, self.alloc, name, text.as_slice())?;
        Ok(true)
    }

    // `file NAME WORD`: a file of both shelves.
    fn set_shelved(&mut self, words: &str) -> Result<bool, NoMemory> {
        let Some((name, word)) = words.split_once(' ') else {
            return Ok(false);
        };
        let (Some(name), Some(bytes)) = (spelled(self.alloc, name)?, self.bytes_of(word)?) else {
            return Ok(false);
        };
        let Ok(name) = String::from_utf8(name.into_vec()) else {
            return Ok(false);
        };
        self.shelf.add(name.as_str(), bytes.as_slice())?;
        self.steady.add(name.as_str(), bytes.as_slice())?;
        Ok(true)
    }

    // `failing CALL`: the fetch of this number fails.
    fn set_failing(&mut self, words: &str) -> Result<bool, NoMemory> {
        match words.parse::<u32>() {
            Ok(call) => {
                self.shelf.fail_on(call)?;
                Ok(true)
            }
            Err(_) => Ok(false),
        }
    }

    /// The bytes of a word: `@NAME` the text of this name, `@NAME:COUNT` a front of it, and else what the word spells.
    pub fn bytes_of(&self, word: &str) -> Result<Option<Row<u8>>, NoMemory> {
        let Some(name) = word.strip_prefix('@') else {
            return spelled(self.alloc, word);
        };
        let (name, count) = match name.split_once(':') {
            None => (name, None),
            Some((name, count)) => match count.parse::<usize>() {
                Ok(count) => (name, Some(count)),
                Err(_) => return Ok(None),
            },
        };
        let Some(text) = find_file(&self.texts, name) else {
            return Ok(None);
        };
        let front = match count {
            None => text,
            Some(count) => &text[..count.min(text.len())],
        };
        Ok(Some(Row::from_slice(self.alloc, front)?))
    }

    /// The bytes of each word, each with a byte 0 behind it; none where one of them has none.
    pub fn all_spelled(&self, words: &str) -> Result<Option<Row<u8>>, NoMemory> {
        let mut all = Row::new(self.alloc);
        for word in words.split_whitespace() {
            let Some(bytes) = self.bytes_of(word)? else {
                return Ok(None);
            };
            all.append(bytes.as_slice())?;
            all.push(0)?;
        }
        Ok(Some(all))
    }
}

// A put that fails, as `CALL KEPT`.
fn failing_put(words: &str) -> Option<FailingPut> {
    let (call, kept) = words.split_once(' ')?;
    Some(FailingPut {
        call: call.parse::<u32>().ok()?,
        kept: kept.parse::<usize>().ok()?,
    })
}

// A piece, so many times.
fn repeated(alloc: Global, piece: &[u8], count: u32) -> Result<Row<u8>, NoMemory> {
    let mut text = Row::new(alloc);
    for _time in 0..count {
        text.append(piece)?;
    }
    Ok(text)
}

// An image of all bytes of the flash that begins so, with zeros behind; none where there are too many.
fn full_flash(front: Vec<u8>) -> Result<Option<Image>, NoMemory> {
    let mut bytes = front;
    for _byte in bytes.len()..FLASH_BYTES {
        bytes.push(0)?;
    }
    if bytes.len() > FLASH_BYTES {
        return Ok(None);
    }
    Ok(Some(Image::from_vec(bytes)))
}
