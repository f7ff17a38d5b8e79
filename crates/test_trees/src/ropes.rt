//! Texts of which the bytes are known.
use crate::patches::edit;
use crate::rope_looks::{Look, Put, first_wrong, is_told_by, refusal};
use cell_units::limits::LAID_LIMIT;
use cell_units::{Bias, Fault, NoMemory, Refusal, Steps, TextFault};
use std::alloc::Global;
use std::test::Fail;
use text_rope::Rope;

/// Of `abc` CR LF `d` are made the five bytes `abc` LF `d`.
#[test]
fn turns_returns_into_feeds(rt: HostRuntime) -> Result<(), Fail> {
    let alloc = rt.alloc();
    let mut steps = Steps::new();
    let looks = [
        Look::Length(5),
        Look::Range(0, 5, "abc\nd"),
        Look::Boundary(4, 1, 0),
        Look::Offset(0, 9, Bias::Left, 3),
        Look::Row(0, "abc"),
    ];
    let rope = Rope::from_bytes(alloc, b"abc\r\nd", &mut steps)?;
    assert_eq!(rt; first_wrong(alloc, &rope, &looks, &mut steps)?, None);
    Ok(())
}

/// The line feed of that text is replaced by a space, and there is nothing from 6 to 7.
#[test]
fn replaces_a_feed(rt: HostRuntime) -> Result<(), Fail> {
    let alloc = rt.alloc();
    let mut steps = Steps::new();
    let space = Put {
        start: 3,
        end: 4,
        text: " ",
    };
    let past = Put {
        start: 6,
        end: 7,
        text: "",
    };
    let looks = [Look::Range(0, 5, "abc d"), Look::Range(1, 3, "bc")];
    let mut rope = Rope::from_bytes(alloc, b"abc\r\nd", &mut steps)?;
    assert!(rt; is_told_by(alloc, &mut rope, space, &[edit(3, 4, 3, 4)], &mut steps)?);
    assert_eq!(rt; first_wrong(alloc, &rope, &looks, &mut steps)?, None);
    let fault = refusal(alloc, &mut rope, past, &mut steps);
    assert_eq!(rt; fault, Some(Fault::Refused(Refusal::BadRange)));
    Ok(())
}

/// As many letters as a text may have bytes, which is 33,554,432.
fn longest(alloc: Global) -> Result<String, NoMemory> {
    let piece = "x".repeat(alloc, 1024)?;
    Ok(piece.repeat(alloc, 32_768)?)
}

/// After a letter that many are too long, and the letter is left as it was.
#[test]
fn refuses_a_replacement_past_the_limit(rt: HostRuntime) -> Result<(), Fail> {
    let alloc = rt.alloc();
    let mut steps = Steps::new();
    let text = longest(alloc)?;
    let letters = Put {
        start: 1,
        end: 1,
        text: text.as_str(),
    };
    let mut rope = Rope::from_bytes(alloc, b"a", &mut steps)?;
    let fault = refusal(alloc, &mut rope, letters, &mut steps);
    assert_eq!(rt; fault, Some(Fault::Refused(Refusal::TooLong)));
    let looks = [Look::Length(1), Look::Whole("a")];
    assert_eq!(rt; first_wrong(alloc, &rope, &looks, &mut steps)?, None);
    Ok(())
}

/// A text of a byte more than a text may have, as it may be within a batch.
fn over_the_limit(alloc: Global, steps: &mut Steps) -> Result<Rope, Fail> {
    let text = longest(alloc)?;
    let rope = Rope::from_bytes(alloc, b"a", steps)?;
    let (long, _) = rope.replaced_within(alloc, 1, 1, text.as_str(), LAID_LIMIT, steps)?;
    Ok(long)
}

/// Why nothing in the place of nothing is refused, if it is.
fn refusal_of_nothing(alloc: Global, rope: &Rope, steps: &mut Steps) -> Option<Fault> {
    rope.replaced(alloc, 0, 0, "", steps).err()
}

/// The number of bytes without the first.
fn length_without_first(alloc: Global, rope: &Rope, steps: &mut Steps) -> Result<u32, Fault> {
    let (short, _) = rope.replaced(alloc, 0, 1, "", steps)?;
    Ok(short.len())
}

/// Within a batch a text may be twice as long. This one has a byte more than a text may have, and is short again after
/// the next replacement.
#[test]
fn keeps_a_text_over_the_limit(rt: HostRuntime) -> Result<(), Fail> {
    let alloc = rt.alloc();
    let mut steps = Steps::new();
    let long = over_the_limit(alloc, &mut steps)?;
    assert_eq!(rt; long.len(), 33_554_433);
    let fault = refusal_of_nothing(alloc, &long, &mut steps);
    assert_eq!(rt; fault, Some(Fault::Refused(Refusal::TooLong)));
    assert_eq!(rt; length_without_first(alloc, &long, &mut steps)?, 33_554_432);
    Ok(())
}

/// A return with no feed after it is a feed too, and two before a feed are two feeds. What is inserted is cleaned by
/// itself: a return at its end and the feed after that are two line breaks.
#[test]
fn turns_lone_returns_into_feeds(rt: HostRuntime) -> Result<(), Fail> {
    let alloc = rt.alloc();
    let mut steps = Steps::new();
    let before = [Look::Lines(5), Look::Whole("a\nb\n\nc\n")];
    let after = [Look::Whole("x\ny\n\nb\n\nc\n")];
    let mut rope = Rope::from_bytes(alloc, b"a\rb\r\r\nc\r", &mut steps)?;
    assert_eq!(rt; first_wrong(alloc, &rope, &before, &mut steps)?, None);
    rope.replace(alloc, 0, 1, "x\r\ny\r", &mut steps)?;
    assert_eq!(rt; first_wrong(alloc, &rope, &after, &mut steps)?, None);
    Ok(())
}

/// Of bytes that are no text, the longest prefix that is one is counted in the bytes as they were given.
#[test]
fn tells_how_far_bytes_are_a_text(rt: HostRuntime) -> Result<(), Fail> {
    let mut steps = Steps::new();
    let made = Rope::from_bytes(rt.alloc(), b"a\r\nb\xffc", &mut steps);
    assert_eq!(rt; made.err(), Some(TextFault::NotUtf8 { at: 4 }));
    Ok(())
}

/// Two rows of 100 characters of three bytes, and a third row.
fn long_rows(alloc: Global) -> Result<String, NoMemory> {
    let mut text = String::new(alloc);
    for _ in 0..2 {
        for _ in 0..100 {
            text.push('€')?;
        }
        text.push('\n')?;
    }
    text.push('d')?;
    Ok(text)
}

/// The chunks of that text end in the middle of rows.
#[test]
fn finds_points_in_long_rows(rt: HostRuntime) -> Result<(), Fail> {
    let alloc = rt.alloc();
    let mut steps = Steps::new();
    let looks = [
        Look::Length(603),
        Look::Boundary(300, 0, 300),
        Look::Boundary(301, 1, 0),
        Look::Boundary(601, 1, 300),
        Look::Boundary(603, 2, 1),
        Look::Inside(295),
        Look::Range(294, 304, "€€\n€"),
        Look::Row(2, "d"),
        Look::Offset(1, 130, Bias::Left, 430),
        Look::Offset(1, 130, Bias::Right, 433),
        Look::Offset(3, 0, Bias::Left, 603),
    ];
    let text = long_rows(alloc)?;
    let rope = Rope::from_bytes(alloc, text.as_bytes(), &mut steps)?;
    assert_eq!(rt; first_wrong(alloc, &rope, &looks, &mut steps)?, None);
    Ok(())
}

/// Types a line so often at the start.
fn type_lines(alloc: Global, rope: &mut Rope, times: u32, steps: &mut Steps) -> Result<(), Fault> {
    for _ in 0..times {
        rope.replace(alloc, 0, 0, "abc\n", steps)?;
    }
    Ok(())
}

/// Deletes four bytes a hundred times from the end of 400. Returns the first turn of which the patch isn't one edit, or
/// after which others are left.
fn first_wrong_deletion(
    alloc: Global,
    rope: &mut Rope,
    steps: &mut Steps,
) -> Result<Option<u32>, Fault> {
    for turn in 0..100 {
        let start = 396 - 4 * turn;
        let end = start + 4;
        let deleted = Put {
            start,
            end,
            text: "",
        };
        let is_told = is_told_by(
            alloc,
            rope,
            deleted,
            &[edit(start, end, start, start)],
            steps,
        )?;
        if !is_told || rope.len() != start {
            return Ok(Some(turn));
        }
    }
    Ok(None)
}

/// A text that is typed letter by letter at its start, and then deleted from its end. Nothing in the place of nothing
/// is no edit.
#[test]
fn types_and_deletes(rt: HostRuntime) -> Result<(), Fail> {
    let alloc = rt.alloc();
    let mut steps = Steps::new();
    let typed = [Look::Length(400), Look::Lines(101), Look::Row(57, "abc")];
    let nothing = Put {
        start: 0,
        end: 0,
        text: "",
    };
    let mut rope = Rope::from_bytes(alloc, b"", &mut steps)?;
    type_lines(alloc, &mut rope, 100, &mut steps)?;
    assert_eq!(rt; first_wrong(alloc, &rope, &typed, &mut steps)?, None);
    assert_eq!(rt; first_wrong_deletion(alloc, &mut rope, &mut steps)?, None);
    assert!(rt; is_told_by(alloc, &mut rope, nothing, &[], &mut steps)?);
    Ok(())
}
