//! The keys of a script, and the words of its values.
ghost use Rattle.std.specs.Prelude.{◌≡◌};
ghost use Rattle.edit_script.specs.Commands.{key_of, bias_of, motion_of, side_of};

use cell_units::{Bias, Motion, Side};

/// The key of a line, which says what it asks.
#[derive(Clone, Copy, Debug, PartialEq, Eq)]
pub(crate) enum Key {
    Edit,
    Inlay,
    Uninlay,
    Fold,
    Unfold,
    Block,
    Unblock,
    Tab,
    Width,
    Settle,
    Rows,
    Peek,
    Display,
    Buffer,
    Clip,
    Move,
    Select,
}

/// The key of this name.
pub(crate) fn key_of(name: &str) -> Option<Key>
    ensures { result ≡ key_of name.now }
{
    if name == "edit" {
        Some(Key::Edit)
    } else if name == "inlay" {
        Some(Key::Inlay)
    } else if name == "uninlay" {
        Some(Key::Uninlay)
    } else if name == "fold" {
        Some(Key::Fold)
    } else if name == "unfold" {
        Some(Key::Unfold)
    } else if name == "block" {
        Some(Key::Block)
    } else if name == "unblock" {
        Some(Key::Unblock)
    } else if name == "tab" {
        Some(Key::Tab)
    } else if name == "width" {
        Some(Key::Width)
    } else if name == "settle" {
        Some(Key::Settle)
    } else if name == "rows" {
        Some(Key::Rows)
    } else if name == "peek" {
        Some(Key::Peek)
    } else if name == "display" {
        Some(Key::Display)
    } else if name == "buffer" {
        Some(Key::Buffer)
    } else if name == "clip" {
        Some(Key::Clip)
    } else if name == "move" {
        Some(Key::Move)
    } else if name == "select" {
        Some(Key::Select)
    } else {
        None
    }
}

/// The bias of this word.
pub(crate) fn bias_of(word: &str) -> Option<Bias>
    ensures { result ≡ bias_of word.now }
{
    if word == "left" {
        Some(Bias::Left)
    } else if word == "right" {
        Some(Bias::Right)
    } else {
        None
    }
}

/// The side of this word.
pub(crate) fn side_of(word: &str) -> Option<Side>
    ensures { result ≡ side_of word.now }
{
    if word == "above" {
        Some(Side::Above)
    } else if word == "below" {
        Some(Side::Below)
    } else {
        None
    }
}

/// The motion of this word.
pub(crate) fn motion_of(word: &str) -> Option<Motion>
    ensures { result ≡ motion_of word.now }
{
    if word == "left" {
        Some(Motion::Left)
    } else if word == "right" {
        Some(Motion::Right)
    } else if word == "up" {
        Some(Motion::Up)
    } else if word == "down" {
        Some(Motion::Down)
    } else if word == "start" {
        Some(Motion::Start)
    } else if word == "end" {
        Some(Motion::End)
    } else {
        None
    }
}
