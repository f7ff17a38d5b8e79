//! Batches whose inverse is known, and a line of texts that is.
ghost use Rattle.std.specs.Prelude.{◌≡◌, [], ◌∷◌, codes};
ghost use Rattle.display_sheet.specs.Changes.{splice_of};
ghost use Rattle.undo_line.specs.Inverse.{inverse};
ghost use Rattle.undo_line.specs.TextLines.{edited, opened_line, redone, undone};

/// Inverses that are known. It does nothing.
pub fn worked_inverses()
    ensures of_touching { inverse (codes "abcdefg")
        (splice_of 3 5 [] ∷ splice_of 5 6 (codes "x") ∷ [])
        ≡ splice_of 3 3 (codes "de") ∷ splice_of 3 4 (codes "f") ∷ [] }
    ensures without_nothing_by_nothing { inverse (codes "abc")
        (splice_of 1 1 [] ∷ splice_of 2 3 [] ∷ [])
        ≡ splice_of 2 2 (codes "c") ∷ [] }
    ensures of_returns { inverse (codes "ab")
        (splice_of 0 1 (13 ∷ 10 ∷ 13 ∷ []) ∷ splice_of 2 2 (codes "c") ∷ [])
        ≡ splice_of 0 2 (codes "a") ∷ splice_of 3 4 [] ∷ [] }
{}

/// Steps along a line of texts that are known. It does nothing.
pub fn worked_lines()
    ensures undo_and_redo { let line = edited
        (splice_of 0 1 (codes "XY") ∷ splice_of 3 3 (codes "!") ∷ [])
        (opened_line (codes "abc"))
        in (line.present ≡ codes "XYbc!")
        × ((undone line).present ≡ codes "abc")
        × (redone (undone line) ≡ line)
        × (redone line ≡ line) }
    ensures edit_after_undo { let line = edited (splice_of 0 0 (codes "z") ∷ [])
        (undone (edited (splice_of 3 3 (codes "!") ∷ []) (opened_line (codes "abc"))))
        in (line.present ≡ codes "zabc")
        × (redone line ≡ line)
        × ((undone line).present ≡ codes "abc") }
    ensures nothing_done { edited (splice_of 1 1 [] ∷ []) (opened_line (codes "abc"))
        ≡ opened_line (codes "abc") }
{}
