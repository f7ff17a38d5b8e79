//! A text of ASCII letters as a plain list, its edits, and what takes them back.
use cell_units::NoMemory;
use generated_input::Generator;
use std::alloc::Global;
use std::test::Fail;

/// A range of bytes, and the text that replaces it.
pub(crate) struct Cut {
    start: u32,
    end: u32,
    text: Vec<u8>,
}

impl Drop for Cut {
    fn drop(self) {
        let Cut {
            start: _,
            end: _,
            text: _,
        } = self;
    }
}

/// A text that is put together from left to right, and the batch that takes that back.
struct Made {
    alloc: Global,
    text: Vec<u8>,
    back: Vec<Cut>,
}

impl Drop for Made {
    fn drop(self) {
        let Made {
            alloc: _,
            text: _,
            back: _,
        } = self;
    }
}

/// The length of a text that is shorter than 2 ^ 32.
fn length(text: &[u8]) -> u32 {
    u32::try_from(text.len()).unwrap_or(u32::MAX)
}

impl Made {
    /// Appends what a range of the old text has.
    fn keep(&mut self, old: &[u8], start: u32, end: u32) -> Result<(), Fail> {
        let kept = old.get(start as usize..end as usize).ok_or("no order")?;
        self.text.extend_from_slice(kept)?;
        Ok(())
    }

    /// Appends what replaces a range, and notes what was there, unless nothing replaces nothing.
    fn replace(&mut self, old: &[u8], cut: &Cut) -> Result<(), Fail> {
        let start = length(self.text.as_slice());
        self.text.extend_from_slice(cut.text.as_slice())?;
        let end = length(self.text.as_slice());
        if start < end || cut.start < cut.end {
            let taken = old
                .get(cut.start as usize..cut.end as usize)
                .ok_or("no range")?;
            let text = Vec::from_slice(self.alloc, taken)?;
            self.back.push(Cut { start, end, text })?;
        }
        Ok(())
    }

    /// Appends all that a batch makes of the old text.
    fn make(&mut self, old: &[u8], batch: &[Cut]) -> Result<(), Fail> {
        let mut rest = 0;
        for cut in batch {
            self.keep(old, rest, cut.start)?;
            self.replace(old, cut)?;
            rest = cut.end;
        }
        self.keep(old, rest, length(old))
    }

    /// Both.
    fn into_parts(self) -> (Vec<u8>, Vec<Cut>) {
        let Made {
            alloc: _,
            text,
            back,
        } = self;
        (text, back)
    }
}

/// A text, the batches that take its edits back, the newest one last, and those that do them again.
pub(crate) struct Edited {
    alloc: Global,
    text: Vec<u8>,
    past: Vec<Vec<Cut>>,
    future: Vec<Vec<Cut>>,
}

impl Drop for Edited {
    fn drop(self) {
        let Edited {
            alloc: _,
            text: _,
            past: _,
            future: _,
        } = self;
    }
}

impl Edited {
    /// A text without edits.
    pub(crate) fn new(alloc: Global, text: &str) -> Result<Edited, NoMemory> {
        Ok(Edited {
            alloc,
            text: Vec::from_slice(alloc, text.as_bytes())?,
            past: Vec::new(alloc),
            future: Vec::new(alloc),
        })
    }

    /// How many bytes the text has.
    pub(crate) fn len(&self) -> u32 {
        length(self.text.as_slice())
    }

    /// Does a batch, and returns what takes it back.
    fn done(&mut self, batch: &[Cut]) -> Result<Vec<Cut>, Fail> {
        let mut made = Made {
            alloc: self.alloc,
            text: Vec::new(self.alloc),
            back: Vec::new(self.alloc),
        };
        made.make(self.text.as_slice(), batch)?;
        let (text, back) = made.into_parts();
        self.text = text;
        Ok(back)
    }

    /// Does an edit. What was taken back before it can't be done again, unless the edit has no operation.
    pub(crate) fn edit(&mut self, batch: &[Cut]) -> Result<(), Fail> {
        let back = self.done(batch)?;
        if !back.is_empty() {
            self.past.push(back)?;
            self.future = Vec::new(self.alloc);
        }
        Ok(())
    }

    /// Takes the last edit back, and returns the line of a script that does that, if there is an edit.
    pub(crate) fn undo(&mut self) -> Result<Option<String>, Fail> {
        let Some(batch) = self.past.pop() else {
            return Ok(None);
        };
        let back = self.done(batch.as_slice())?;
        self.future.push(back)?;
        Ok(Some(edit_line(self.alloc, batch.as_slice())?))
    }

    /// Does the edit again that was taken back last, and returns the line of a script that does that, if there is one.
    pub(crate) fn redo(&mut self) -> Result<Option<String>, Fail> {
        let Some(batch) = self.future.pop() else {
            return Ok(None);
        };
        let back = self.done(batch.as_slice())?;
        self.past.push(back)?;
        Ok(Some(edit_line(self.alloc, batch.as_slice())?))
    }
}

/// Appends a letter to a JSON string.
fn push_letter(line: &mut String, letter: u8) -> Result<(), NoMemory> {
    match letter {
        b'\n' => line.push_str("\\n")?,
        b'\t' => line.push_str("\\t")?,
        letter => line.push(char::from(letter))?,
    }
    Ok(())
}

/// Appends an entry of an edit.
fn push_cut(line: &mut String, cut: &Cut) -> Result<(), NoMemory> {
    write!(line, "[{},{},\"", cut.start, cut.end)?;
    for letter in &cut.text {
        push_letter(line, *letter)?;
    }
    line.push_str("\"]")?;
    Ok(())
}

/// The line of a script that asks for a batch.
pub(crate) fn edit_line(alloc: Global, batch: &[Cut]) -> Result<String, NoMemory> {
    let mut line = String::from_str(alloc, r#"{"edit":["#)?;
    for (i, cut) in batch.iter().enumerate() {
        if i > 0 {
            line.push(',')?;
        }
        push_cut(&mut line, cut)?;
    }
    line.push_str("]}")?;
    Ok(line)
}

/// A text that an edit puts in.
fn drawn_word(generator: &mut Generator) -> &'static [u8] {
    match generator.below(8) {
        0 => b"x",
        1 => b"yz",
        2 => b" ",
        3 => b"one two ",
        4 => b"\n",
        5 => b"\ta",
        _ => b"",
    }
}

/// A short range of a text of this length, no earlier than `first`. One in two begins there.
fn drawn_cut(
    alloc: Global,
    generator: &mut Generator,
    first: u32,
    len: u32,
) -> Result<Cut, NoMemory> {
    let left = len.saturating_sub(first);
    let gap = generator.below(left.saturating_add(1));
    let start = match generator.below(2) {
        0 => first,
        _ => first.saturating_add(gap),
    };
    let end = start.saturating_add(generator.below(5)).min(len);
    Ok(Cut {
        start,
        end,
        text: Vec::from_slice(alloc, drawn_word(generator))?,
    })
}

/// An edit of no range, of one, or of two ranges, which may touch.
pub(crate) fn drawn_batch(
    alloc: Global,
    generator: &mut Generator,
    len: u32,
) -> Result<Vec<Cut>, NoMemory> {
    let mut batch = Vec::new(alloc);
    let mut first = generator.below(len.saturating_add(1));
    for _ in 0..generator.below(3) {
        let cut = drawn_cut(alloc, generator, first, len)?;
        first = cut.end;
        batch.push(cut)?;
    }
    Ok(batch)
}
