//! Worked changes: operations of which the changed rows are known.
ghost use Rattle.std.specs.Prelude.{◌≡◌, List, [], ◌∷◌, codes, length};
ghost use Rattle.cell_units.specs.declared.place.Bias.TheVariants.{Right};
ghost use Rattle.cell_units.specs.declared.place.Side.TheVariants.{Above, Below};
ghost use Rattle.cell_units.specs.Inlaid.{placeholder};
ghost use Rattle.cell_units.specs.Operation.{AddBlock, AddFold, AddInlay, Replace, SetTab, SetWidth};
ghost use Rattle.cell_units.specs.Worked.{block, fold, inlay, settled};
ghost use Rattle.display_sheet.specs.LineStep.{line_step};
ghost use Rattle.plain_rows.specs.Rows.{rows_of};
ghost use Rattle.plain_rows.specs.Worked.{marked, ten_lines};
ghost use Rattle.row_pieces.specs.Changed.{IsTrue, change, looks, no_change, covering};

/// Operations of which the changed rows are known. It does nothing.
pub fn worked_changes()
    // Edits of one line, one of which unwraps it. A row less is not true.
    ensures letter { let r = settled (codes "a\nbb\nc") [] [] [] 80 in
        IsTrue (change 1 2 1) (looks r) (looks (line_step (Replace 3 3 (codes "x")) r)) }
    ensures line_feed { let r = settled (codes "a\nbb\nc") [] [] [] 80 in
        IsTrue (change 1 2 2) (looks r) (looks (line_step (Replace 3 3 (codes "\n")) r)) }
    ensures unwrapped { let r = settled (codes "a\naaa bbb\nc") [] [] [] 5 in
        IsTrue (change 1 3 1) (looks r) (looks (line_step (Replace 2 2 (codes "x")) r)) }
    ensures one_row_short { let r = settled (codes "a\naaa bbb\nc") [] [] [] 5 in
        IsTrue (change 1 2 1) (looks r) (looks (line_step (Replace 2 2 (codes "x")) r)) → ⊥ }
    // A fold, a block, the width, and a landing of one line among ten.
    ensures folded { let r = settled (codes "a\nb\nc\nd") [] [] [] 80 in
        IsTrue (change 0 2 1) (looks r) (looks (line_step (AddFold (fold 1 3 1)) r)) }
    ensures block_below { let r = settled (codes "a\nb") [] [] [] 80 in
        let after = line_step (AddBlock 0 1 Below (codes "x" ∷ codes "y" ∷ [])) r in
        IsTrue (change 1 1 2) (looks r) (looks after) }
    ensures other_width { let r = ten_lines 5 in
        IsTrue no_change (looks r) (looks (line_step (SetWidth 40) r)) }
    ensures landed { let r = marked (ten_lines 5) 5 0 in
        IsTrue (change 10 11 2) (looks r) (looks (marked r 5 5)) }
    // A fold over a typed placeholder: no text of a row changes, and yet one row looks another.
    ensures same_text { let r = settled placeholder [] [] [] 80 in
        let after = line_step (AddFold (fold 0 3 1)) r in
        (rows_of after ≡ rows_of r) × IsTrue (change 0 1 1) (looks r) (looks after) }
    ensures same_text_looks_other { let r = settled placeholder [] [] [] 80 in
        IsTrue no_change (looks r) (looks (line_step (AddFold (fold 0 3 1)) r)) → ⊥ }
    // A letter in a line with a block in it.
    ensures block_of_a_folded_row { let blocks = block 2 1 Above (codes "up" ∷ []) ∷ [] in
        let r = settled (codes "a\nb\nc") [] (fold 1 4 1 ∷ []) blocks 80 in
        IsTrue (change 1 2 1) (looks r) (looks (line_step (Replace 0 0 (codes "x")) r)) }
    // Two changes in turn.
    ensures two_covered { covering (change 1 2 2) (change 4 5 1) ≡ change 1 4 4 }
    ensures nothing_covered { covering no_change (change 7 8 1) ≡ change 7 8 1 }
{}
