//! The texts on which carets are moved, by kind and size.
use cell_units::NoMemory;
use std::alloc::Global;

/// What lines a text has.
#[derive(Clone, Copy)]
pub enum Kind {
    /// Lines of 23 bytes.
    Short,
    /// One line.
    Long,
    /// Lines of 40 wide characters, of three bytes each.
    Wide,
}

impl Kind {
    pub fn named(word: &str) -> Kind {
        match word {
            "long" => Kind::Long,
            "wide" => Kind::Wide,
            _ => Kind::Short,
        }
    }

    /// What the text repeats.
    fn part(self) -> &'static str {
        match self {
            Kind::Short => "let value = some.word;\n",
            Kind::Long => "let value = some.word; ",
            Kind::Wide =>
                "\u{6f22}\u{5b57}\u{304b}\u{306a}\u{6f22}\u{5b57}\u{304b}\u{306a}\u{6f22}\u{5b57}\u{304b}\u{306a}\u{6f22}\u{5b57}\u{304b}\u{306a}\u{6f22}\u{5b57}\u{304b}\u{306a}\u{6f22}\u{5b57}\u{304b}\u{306a}\u{6f22}\u{5b57}\u{304b}\u{306a}\u{6f22}\u{5b57}\u{304b}\u{306a}\u{6f22}\u{5b57}\u{304b}\u{306a}\u{6f22}\u{5b57}\u{304b}\u{306a}\n",
        }
    }
}

/// A text that repeats one part.
#[derive(Drop)]
pub struct Repeated {
    pub bytes: Vec<u8>,
    /// How many bytes a part has, and how many parts there are.
    pub part: u32,
    pub parts: u32,
}

/// A text of this kind that has at most so many bytes.
pub fn of_kind(alloc: Global, kind: Kind, most: u32) -> Result<Repeated, NoMemory> {
    let text = kind.part().as_bytes();
    let part = u32::try_from(text.len()).unwrap_or(1).max(1);
    let parts = most / part;
    let mut bytes = Vec::new(alloc);
    for _ in 0..parts {
        bytes.extend_from_slice(text)?;
    }
    Ok(Repeated { bytes, part, parts })
}
