//! Carets and selections that are known.
ghost use Rattle.std.specs.Prelude.{◌≡◌, ◌++◌, [], ◌∷◌, codes};
ghost use Rattle.cell_units.specs.declared.place.Bias.TheVariants as bias;
ghost use Rattle.cell_units.specs.declared.place.Motion.TheVariants.{Down, End, Left, Right, Start, Up};
ghost use Rattle.cell_units.specs.declared.place.Side.TheVariants.{Above, Below};
ghost use Rattle.cell_units.specs.Worked.{block, fold, folded_record, inlay, settled};
ghost use Rattle.plain_rows.specs.Worked.{spot};
ghost use Rattle.view_moves.specs.Moves.{caret, selection};
ghost use Rattle.view_moves.specs.Worked.{caret_at, selected, span_of};

/// Carets that are known. It does nothing.
pub fn worked_carets()
    ensures motions { let r = settled (codes "hello world") [] [] [] 5
        in (caret r (spot 0 4) 4 Down ≡ caret_at 1 4 4)
        × (caret r (spot 0 5) 5 Right ≡ caret_at 1 0 0)
        × (caret r (spot 1 5) 9 Down ≡ caret_at 1 5 9)
        × (caret r (spot 1 2) 2 Up ≡ caret_at 0 2 2) }
    ensures motion_over_inlay { let r = folded_record (codes "let x = 1")
        (inlay 5 bias.Right 1 (codes ": i32") ∷ []) []
        in (caret r (spot 0 5) 5 Right ≡ caret_at 0 10 10)
        × (caret r (spot 0 10) 10 Left ≡ caret_at 0 5 5) }
    ensures over_a_fold { let r = folded_record (codes "fn f() {\n  a\n}\n") []
        (fold 8 13 1 ∷ [])
        in (caret r (spot 0 8) 8 Right ≡ caret_at 0 9 9)
        × (caret r (spot 0 9) 9 Left ≡ caret_at 0 8 8)
        × (caret r (spot 1 0) 20 Up ≡ caret_at 0 10 20) }
    ensures over_blocks { let r = settled (codes "a\nb") [] []
        (block 0 2 Below (codes "note" ∷ [])
        ∷ block 2 1 Above (codes "==" ∷ codes "--" ∷ []) ∷ []) 80
        in (caret r (spot 0 1) 1 Down ≡ caret_at 4 1 1)
        × (caret r (spot 4 0) 0 Up ≡ caret_at 0 0 0)
        × (caret r (spot 2 0) 0 Right ≡ caret_at 4 0 0) }
    ensures below_a_block { let r = settled (codes "abc") [] []
        (block 0 1 Above (codes "x" ∷ codes "y" ∷ []) ∷ []) 80
        in (caret r (spot 2 3) 9 Up ≡ caret_at 2 0 9)
        × (caret r (spot 0 0) 0 Left ≡ caret_at 2 0 0) }
    ensures over_wide { let r = settled
        (codes "ab" ++ 0xE6 ∷ 0xBC ∷ 0xA2 ∷ 0xE5 ∷ 0xAD ∷ 0x97 ∷ codes "cd") [] [] [] 4
        in (caret r (spot 0 2) 2 Right ≡ caret_at 1 0 0)
        × (caret r (spot 1 0) 0 Right ≡ caret_at 1 2 2)
        × (caret r (spot 1 1) 1 Left ≡ caret_at 0 2 2)
        × (caret r (spot 0 0) 0 End ≡ caret_at 0 2 2)
        × (caret r (spot 0 1) 1 Down ≡ caret_at 1 0 1) }
    ensures below_an_indent { let r = settled (codes "\tfoo bar baz") [] [] [] 10
        in (caret r (spot 1 6) 6 Start ≡ caret_at 1 4 4)
        × (caret r (spot 0 0) 0 Down ≡ caret_at 1 4 0)
        × (caret r (spot 0 5) 5 End ≡ caret_at 0 7 7) }
    ensures over_a_row_of_an_inlay { let r = folded_record (codes "ab")
        (inlay 1 bias.Right 1 (codes "x\ny\nz") ∷ []) []
        in (caret r (spot 0 0) 0 Down ≡ caret_at 2 1 0)
        × (caret r (spot 2 2) 9 Up ≡ caret_at 0 1 9)
        × (caret r (spot 0 1) 1 Right ≡ caret_at 2 1 1) }
{}

/// Selections that are known. It does nothing.
pub fn worked_selections()
    ensures select_two_rows { let r = settled (codes "hello world") [] [] [] 5
        in (selection r (spot 0 3) (spot 1 2) ≡
        selected 3 8 (span_of 0 3 5 ∷ span_of 1 0 2 ∷ []))
        × (selection r (spot 1 2) (spot 0 3) ≡
        selected 3 8 (span_of 0 3 5 ∷ span_of 1 0 2 ∷ [])) }
    ensures over_a_fold { let r = folded_record (codes "fn f() {\n  a\n}\n") []
        (fold 8 13 1 ∷ [])
        in (selection r (spot 0 7) (spot 0 9) ≡ selected 7 13 (span_of 0 7 9 ∷ [])) }
    ensures over_blocks { let r = settled (codes "a\nb") [] []
        (block 0 2 Below (codes "note" ∷ [])
        ∷ block 2 1 Above (codes "==" ∷ codes "--" ∷ []) ∷ []) 80
        in (selection r (spot 0 1) (spot 4 0) ≡ selected 1 2 (span_of 0 1 1 ∷ span_of 4 0 0 ∷ [])) }
    ensures of_blocks_alone { let r = settled (codes "a\nb") [] []
        (block 0 2 Below (codes "note" ∷ [])
        ∷ block 2 1 Above (codes "==" ∷ codes "--" ∷ []) ∷ []) 80
        in (selection r (spot 1 0) (spot 3 5) ≡ selected 1 1 (span_of 0 1 1 ∷ [])) }
    ensures over_indents { let r = settled (codes "\tfoo bar baz") [] [] [] 10
        in (selection r (spot 0 5) (spot 2 5) ≡
        selected 2 10 (span_of 0 5 7 ∷ span_of 1 4 7 ∷ span_of 2 4 5 ∷ [])) }
    ensures inside_wide { let r = settled
        (codes "ab" ++ 0xE6 ∷ 0xBC ∷ 0xA2 ∷ 0xE5 ∷ 0xAD ∷ 0x97 ∷ codes "cd") [] [] [] 4
        in (selection r (spot 1 1) (spot 1 2) ≡ selected 5 8 (span_of 1 0 2 ∷ [])) }
    ensures at_zero_width { let r = folded_record
        (codes "a" ++ 0xE2 ∷ 0x80 ∷ 0x8B ∷ codes "b") [] []
        in (selection r (spot 0 1) (spot 0 1) ≡ selected 1 4 (span_of 0 1 1 ∷ [])) }
    ensures over_a_row_of_an_inlay { let r = folded_record (codes "ab")
        (inlay 1 bias.Right 1 (codes "x\ny\nz") ∷ []) []
        in (selection r (spot 0 0) (spot 2 2) ≡ selected 0 2 (span_of 0 0 1 ∷ span_of 2 1 2 ∷ [])) }
{}
