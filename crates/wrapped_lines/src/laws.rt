//! Laws of lines that are wrapped. These functions do nothing: each one's contract is the law.
ghost use Rattle.wrapped_lines.specs.Laws.{AreSet, HasRoomForLines, KeptLinesStay};

/// There is room for the lines of each lawful record, whatever their marks.
pub fn room_laws()
    ensures { HasRoomForLines }
{}

/// When lines land, the marks are those that the record has then, and any line whose rows are kept stays where it is.
pub fn landing_laws()
    ensures marks { AreSet }
    ensures kept { KeptLinesStay }
{}
