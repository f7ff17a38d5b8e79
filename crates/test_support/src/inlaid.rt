//! A text with inlays by plain lists: what has to be shown, byte by byte, and where the text's offsets are in it.
use crate::lists::{count_of, moved, on_boundary, replaced, row_at};
use crate::words::cleaned;
use cell_units::{Bias, NoMemory, Refusal};
use std::alloc::Global;

/// How many ids there are.
pub const IDS: u32 = 12;

/// An inlay with one of the texts that are given.
#[derive(Clone, Copy)]
struct PlainInlay {
    offset: u32,
    bias: Bias,
    word: u32,
}

/// What a byte that is shown belongs to: the text, the inlay of an id, or a placeholder.
#[derive(Clone, Copy, PartialEq, Eq)]
pub enum Origin {
    Text,
    Inlay(u32),
    Placeholder,
}

/// A byte that is shown, and its offset: for a placeholder, that at which its fold starts.
#[derive(Clone, Copy, PartialEq, Eq)]
pub struct ShownByte {
    pub byte: u8,
    pub offset: u32,
    pub origin: Origin,
}

impl ShownByte {
    /// Whether it is a line feed.
    pub fn ends_line(self) -> bool {
        self.byte == b'\n'
    }

    /// Whether both are of the text, both of one inlay or both of one placeholder.
    pub fn is_of_one_piece_with(self, other: ShownByte) -> bool {
        self.origin == other.origin && (self.origin == Origin::Text || self.offset == other.offset)
    }
}

/// A boundary with its left and its right place, and whether it is hidden.
#[derive(Clone, Copy)]
pub struct Placed {
    pub offset: u32,
    pub left: u32,
    pub right: u32,
    pub is_hidden: bool,
}

/// A text and its inlays by their ids.
#[derive(Drop)]
pub struct InlaidText {
    alloc: Global,
    text: Vec<u8>,
    inlays: Vec<Option<PlainInlay>>,
}

impl InlaidText {
    /// An empty text without inlays.
    pub fn new(alloc: Global) -> Result<InlaidText, NoMemory> {
        let mut inlays = Vec::new(alloc);
        for _ in 0..IDS {
            inlays.push(None)?;
        }
        Ok(InlaidText {
            alloc,
            text: Vec::new(alloc),
            inlays,
        })
    }

    /// The bytes of the text.
    pub fn bytes(&self) -> &[u8] {
        &self.text
    }

    /// The number of bytes of the text.
    pub fn len(&self) -> u32 {
        count_of(self.text.len())
    }

    /// Whether an offset is no further than the end and not within a character.
    pub fn is_boundary(&self, offset: u32) -> bool {
        on_boundary(&self.text, offset)
    }

    /// The row of an offset.
    pub fn row(&self, offset: u32) -> u32 {
        row_at(&self.text, offset)
    }

    /// The inlay of an id.
    fn inlay(&self, id: u32) -> Option<PlainInlay> {
        self.inlays.get(id as usize).copied().flatten()
    }

    /// The offset of the inlay of an id.
    pub fn offset_of(&self, id: u32) -> Option<u32> {
        self.inlay(id).map(|inlay| inlay.offset)
    }

    /// The place of an offset: the offset and the bytes of all inlays before it, and for Right those of the inlays at
    /// it too.
    pub fn place(&self, offset: u32, bias: Bias) -> u32 {
        let mut place = offset;
        for id in 0..IDS {
            if let Some(inlay) = self.inlay(id)
                && (inlay.offset < offset || inlay.offset == offset && bias == Bias::Right)
            {
                place = place.wrapping_add(count_of(cleaned(inlay.word).len()));
            }
        }
        place
    }

    /// The row of a place: that of the greatest offset of which the left place is no further.
    pub fn row_of_place(&self, place: u32) -> u32 {
        let mut last = 0;
        for offset in 0..self.len().saturating_add(1) {
            if self.place(offset, Bias::Left) <= place {
                last = offset;
            }
        }
        self.row(last)
    }

    /// The boundaries, each with its two places.
    pub fn placed(&self) -> Result<Vec<Placed>, NoMemory> {
        let mut all = Vec::new(self.alloc);
        for offset in 0..self.len().saturating_add(1) {
            if self.is_boundary(offset) {
                all.push(Placed {
                    offset,
                    left: self.place(offset, Bias::Left),
                    right: self.place(offset, Bias::Right),
                    is_hidden: false,
                })?;
            }
        }
        Ok(all)
    }

    /// The text with its inlays: at each offset the inlays there, Left before Right and by ids, and then its byte.
    pub fn written_out(&self) -> Result<Vec<ShownByte>, NoMemory> {
        let mut all = Vec::new(self.alloc);
        let mut offset = 0;
        for byte in &self.text {
            self.write_inlays(offset, &mut all)?;
            all.push(ShownByte {
                byte: *byte,
                offset,
                origin: Origin::Text,
            })?;
            offset = offset.wrapping_add(1);
        }
        self.write_inlays(offset, &mut all)?;
        Ok(all)
    }

    /// Writes the inlays at an offset.
    fn write_inlays(&self, offset: u32, all: &mut Vec<ShownByte>) -> Result<(), NoMemory> {
        for bias in [Bias::Left, Bias::Right] {
            for id in 0..IDS {
                if let Some(inlay) = self.inlay(id)
                    && inlay.offset == offset
                    && inlay.bias == bias
                {
                    write(cleaned(inlay.word), offset, Origin::Inlay(id), all)?;
                }
            }
        }
        Ok(())
    }
}

/// The changes.
impl InlaidText {
    /// Adds an inlay, or returns why not.
    pub fn insert(&mut self, id: u32, offset: u32, bias: Bias, word: u32) -> Option<Refusal> {
        let on_boundary = self.is_boundary(offset);
        let Some(slot) = self.inlays.get_mut(id as usize) else {
            return Some(Refusal::BadNumber);
        };
        if slot.is_some() {
            return Some(Refusal::IdInUse);
        }
        if !on_boundary {
            return Some(Refusal::BadRange);
        }
        if cleaned(word).len() == 0 {
            return Some(Refusal::BadText);
        }
        *slot = Some(PlainInlay { offset, bias, word });
        None
    }

    /// Takes an inlay away, or returns why not.
    pub fn remove(&mut self, id: u32) -> Option<Refusal> {
        removed(self.inlays.get_mut(id as usize))
    }

    /// Puts a text in the place of a range and moves the inlays, or returns why not.
    pub fn edit(&mut self, start: u32, end: u32, word: u32) -> Result<Option<Refusal>, NoMemory> {
        if start > end || !self.is_boundary(start) || !self.is_boundary(end) {
            return Ok(Some(Refusal::BadRange));
        }
        let put = cleaned(word).as_bytes();
        self.text = replaced(self.alloc, &self.text, start, end, put)?;
        let come = count_of(put.len());
        for slot in &mut self.inlays {
            if let Some(inlay) = slot {
                inlay.offset = moved(inlay.offset, inlay.bias, start, end, come);
            }
        }
        Ok(None)
    }
}

/// Writes a text that is at an offset.
pub fn write(
    text: &str,
    offset: u32,
    origin: Origin,
    all: &mut Vec<ShownByte>,
) -> Result<(), NoMemory> {
    for byte in text.as_bytes() {
        all.push(ShownByte {
            byte: *byte,
            offset,
            origin,
        })?;
    }
    Ok(())
}

/// Empties a slot, or returns why not.
pub fn removed<T: Copy>(slot: Option<&mut Option<T>>) -> Option<Refusal> {
    let Some(slot) = slot else {
        return Some(Refusal::UnknownId);
    };
    if slot.is_none() {
        return Some(Refusal::UnknownId);
    }
    *slot = None;
    None
}
