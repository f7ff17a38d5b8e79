//! Worked rows of the definitions: records of which the rows and the spots are known.
ghost use Rattle.std.specs.Prelude.{◌≡◌, ◌++◌, List, [], ◌∷◌, codes, length, map, replicate};
ghost use Rattle.cell_units.specs.declared.place.Bias.TheVariants.{Left, Right};
ghost use Rattle.cell_units.specs.declared.place.Side.TheVariants.{Above, Below};
ghost use Rattle.cell_units.specs.Operation.{AddInlay, Replace, SetTab, SetWidth, operated};
ghost use Rattle.cell_units.specs.Inlaid.{placeholder};
ghost use Rattle.cell_units.specs.Text.{clean};
ghost use Rattle.cell_units.specs.Worked.{block, fold, folded_record, inlay, settled};
ghost use Rattle.cell_line.specs.Wrapping.{cuts_of, indent_of};
ghost use Rattle.plain_rows.specs.Reach.{reach_of_operation};
ghost use Rattle.plain_rows.specs.Rows.{rows_of};
ghost use Rattle.plain_rows.specs.Spots.{back, clip, elements_at, show};
ghost use Rattle.plain_rows.specs.Worked.{block_row, head, marked, more, ordinary_source, spot, ten_lines};

/// Lines of which the elements and cuts are known. It does nothing.
pub fn worked_elements()
    ensures tab_elements { map (λ e. e.cells) (elements_at (folded_record (codes "\tab") [] []) 0)
        ≡ 4 ∷ 1 ∷ 1 ∷ [] }
    ensures hello_cuts { let es = elements_at (folded_record (codes "hello world") [] []) 0 in (cuts_of es 5 ≡ 6 ∷ []) × (indent_of es 5 ≡ 0) }
    ensures function_fold { length (elements_at (folded_record (codes "fn f() {\n  a\n}\n") [] (fold 8 13 1 ∷ [])) 0)
        ≡ 10 }
    ensures combining_mark { map (λ e. e.cells) (elements_at (folded_record (codes "e" ++ 0xCC ∷ 0x81 ∷ codes "x") [] []) 0)
        ≡ 1 ∷ 1 ∷ [] }
    ensures zero_width_space { map (λ e. e.cells) (elements_at (folded_record (codes "a" ++ 0xE2 ∷ 0x80 ∷ 0x8B ∷ codes "b") [] []) 0)
        ≡ 1 ∷ 0 ∷ 1 ∷ [] }
    ensures emoji { map (λ e. e.cells) (elements_at (settled (codes "x" ++ 0xF0 ∷ 0x9F ∷ 0x98 ∷ 0x80 ∷ codes "y") [] [] [] 2) 0)
        ≡ 1 ∷ 2 ∷ 1 ∷ [] }
{}

/// Records of which the rows are known. It does nothing.
pub fn worked_rows()
    ensures empty_text { rows_of (folded_record [] [] []) ≡ head [] ∷ [] }
    ensures crlf { rows_of (folded_record (clean (codes "abc\r\n")) [] [])
        ≡ head (codes "abc") ∷ head [] ∷ [] }
    ensures hundred_letters { rows_of (settled (replicate 100 97) [] [] [] 80)
        ≡ head (replicate 80 97) ∷ more (replicate 20 97) ∷ [] }
    ensures hanging_blank { rows_of (settled (codes "hello world") [] [] [] 5)
        ≡ head (codes "hello ") ∷ more (codes "world") ∷ [] }
    ensures tab_indent { rows_of (settled (codes "\tfoo bar baz") [] [] [] 10)
        ≡ head (codes "    foo ") ∷ more (codes "    bar ") ∷ more (codes "    baz") ∷ [] }
    ensures long_word { rows_of (settled (codes "abcdefgh") [] [] [] 3)
        ≡ head (codes "abc") ∷ more (codes "def") ∷ more (codes "gh") ∷ [] }
    ensures wide_cells { rows_of (settled (codes "ab" ++ 0xE6 ∷ 0xBC ∷ 0xA2 ∷ 0xE5 ∷ 0xAD ∷ 0x97 ∷ codes "cd") [] [] [] 4)
        ≡ head (codes "ab" ++ 0xE6 ∷ 0xBC ∷ 0xA2 ∷ []) ∷ more (0xE5 ∷ 0xAD ∷ 0x97 ∷ codes "cd")
        ∷ [] }
    ensures indent_half { rows_of (settled (codes "    fooooooooo") [] [] [] 8)
        ≡ head (codes "    fooo") ∷ more (codes "    oooo") ∷ more (codes "    oo") ∷ [] }
    ensures type_inlay { rows_of (folded_record (codes "let x = 1") (inlay 5 Right 1 (codes ": i32") ∷ []) [])
        ≡ head (codes "let x: i32 = 1") ∷ [] }
    ensures function_fold { rows_of (folded_record (codes "fn f() {\n  a\n}\n") [] (fold 8 13 1 ∷ []))
        ≡ head (codes "fn f() {" ++ placeholder ++ codes "}") ∷ head [] ∷ [] }
    ensures emoji_rows { rows_of (settled (codes "x" ++ 0xF0 ∷ 0x9F ∷ 0x98 ∷ 0x80 ∷ codes "y") [] [] [] 2)
        ≡ head (codes "x") ∷ more (0xF0 ∷ 0x9F ∷ 0x98 ∷ 0x80 ∷ []) ∷ more (codes "y") ∷ [] }
    ensures block_above { rows_of (settled (codes "abc") [] [] (block 0 1 Above (codes "x" ∷ codes "y" ∷ []) ∷ []) 80)
        ≡ block_row (codes "x") ∷ block_row (codes "y") ∷ head (codes "abc") ∷ [] }
    ensures blocks_between { rows_of (settled (codes "a\nb") [] [] (block 0 2 Below (codes "note" ∷ []) ∷ block 2 1 Above (codes "==" ∷ codes "--" ∷ []) ∷ []) 80)
        ≡ head (codes "a") ∷ block_row (codes "note") ∷ block_row (codes "==")
        ∷ block_row (codes "--") ∷ head (codes "b") ∷ [] }
    ensures touching_insertions { rows_of (operated (Replace 1 2 (codes "XY")) (operated (Replace 3 3 (codes "1")) (operated (Replace 3 3 (codes "2")) (folded_record (codes "abcdef") (inlay 3 Left 1 (codes "<") ∷ inlay 3 Right 2 (codes ">") ∷ []) []))))
        ≡ head (codes "aXYc<12>def") ∷ [] }
    ensures inlay_between_replacements { rows_of (operated (Replace 1 2 (codes "X")) (operated (Replace 2 3 (codes "Y")) (folded_record (codes "abcdef") (inlay 2 Left 1 (codes "^") ∷ []) [])))
        ≡ head (codes "aX^Ydef") ∷ [] }
    ensures edit_replaces { rows_of (operated (Replace 1 2 (codes "XY")) (folded_record (codes "abc") [] []))
        ≡ head (codes "aXYc") ∷ [] }
    ensures joined_folds { rows_of (folded_record (codes "abcdefgh") [] (fold 1 4 1 ∷ fold 3 6 2 ∷ []))
        ≡ head (codes "a" ++ placeholder ++ codes "gh") ∷ [] }
    ensures touching_folds { rows_of (folded_record (codes "abcdefgh") [] (fold 1 4 1 ∷ fold 4 6 3 ∷ []))
        ≡ head (codes "a" ++ placeholder ++ placeholder ++ codes "gh") ∷ [] }
    ensures fold_dropped { rows_of (operated (Replace 1 4 []) (folded_record (codes "abcdefgh") [] (fold 1 4 1 ∷ fold 4 6 3 ∷ [])))
        ≡ head (codes "a" ++ placeholder ++ codes "gh") ∷ [] }
    ensures inlay_with_break { rows_of (folded_record (codes "ab") (inlay 1 Right 1 (codes "x\ny") ∷ []) [])
        ≡ head (codes "ax") ∷ head (codes "yb") ∷ [] }
    ensures inlay_only_break { rows_of (folded_record (codes "ab") (inlay 1 Right 1 (codes "\n") ∷ []) [])
        ≡ head (codes "a") ∷ head (codes "b") ∷ [] }
    ensures block_at_placeholder { rows_of (settled (codes "a\nb\nc") [] (fold 1 4 1 ∷ []) (block 2 1 Above (codes "-- b" ∷ []) ∷ []) 80)
        ≡ block_row (codes "-- b") ∷ head (codes "a" ++ placeholder ++ codes "c") ∷ [] }
    ensures blocks_around_inlay_break { rows_of (settled (codes "ab") (inlay 2 Right 1 (codes "x\ny") ∷ []) [] (block 0 1 Above (codes "up" ∷ []) ∷ block 0 2 Below (codes "down" ∷ []) ∷ []) 80)
        ≡ block_row (codes "up") ∷ head (codes "abx") ∷ head (codes "y")
        ∷ block_row (codes "down") ∷ [] }
    ensures block_above_inlay_break { rows_of (settled (codes "ab") (inlay 0 Right 1 (codes "x\ny") ∷ []) [] (block 0 1 Above (codes "up" ∷ []) ∷ []) 80)
        ≡ block_row (codes "up") ∷ head (codes "x") ∷ head (codes "yab") ∷ [] }
    ensures tab_of_eight { rows_of (record (folded_record (codes "\tab") [] []) { tab = 8 })
        ≡ head (codes "        ab") ∷ [] }
    ensures ordinary_source { rows_of (ordinary_source [])
        ≡ head (codes "fn main() {") ∷ head (codes "    let total: u32 = ")
        ∷ more (codes "    items.iter().sum();") ∷ block_row (codes "-- prints it")
        ∷ head (codes "    println!(\"{total}\");") ∷ head (codes "}") ∷ head [] ∷ [] }
    ensures ordinary_source_folded { rows_of (ordinary_source (fold 11 67 1 ∷ []))
        ≡ block_row (codes "-- prints it")
        ∷ head (codes "fn main() {" ++ placeholder ++ codes "}") ∷ head [] ∷ [] }
    ensures point_edit { rows_of (operated (Replace 1 3 (codes "e")) (folded_record (codes "h" ++ 0xC3 ∷ 0xA9 ∷ codes "llo\nx") [] []))
        ≡ head (codes "hello") ∷ head (codes "x") ∷ [] }
    ensures two_views { rows_of (operated (Replace 3 3 (codes "c")) (folded_record (codes "a\nb") [] (fold 0 1 1 ∷ [])))
        ≡ head placeholder ∷ head (codes "bc") ∷ [] }
    ensures undo_and_redo { rows_of (operated (Replace 0 1 (codes "XY")) (operated (Replace 3 3 (codes "!")) (folded_record (codes "abc") [] [])))
        ≡ head (codes "XYbc!") ∷ [] }
    ensures ten_lines { length (rows_of (ten_lines 5)) ≡ 20 }
    ensures changed_back { length (rows_of (marked (ten_lines 5) 5 0)) ≡ 19 }
{}

/// Positions of which the spot is known. It does nothing.
pub fn worked_spots()
    ensures tab_indent { let r = settled (codes "\tfoo bar baz") [] [] [] 10 in
        (show r 5 Left ≡ spot 1 4) }
    ensures type_inlay { let r = folded_record (codes "let x = 1") (inlay 5 Right 1 (codes ": i32") ∷ []) [] in
        (show r 5 Left ≡ spot 0 5) × (show r 5 Right ≡ spot 0 10) }
    ensures function_fold { let r = folded_record (codes "fn f() {\n  a\n}\n") [] (fold 8 13 1 ∷ []) in
        (show r 10 Left ≡ spot 0 8) × (show r 10 Right ≡ spot 0 9) }
    ensures combining_mark { let r = folded_record (codes "e" ++ 0xCC ∷ 0x81 ∷ codes "x") [] [] in
        (show r 1 Left ≡ spot 0 0) × (show r 1 Right ≡ spot 0 1) }
    ensures emoji_rows { let r = settled (codes "x" ++ 0xF0 ∷ 0x9F ∷ 0x98 ∷ 0x80 ∷ codes "y") [] [] [] 2 in
        (show r 1 Left ≡ spot 1 0) × (show r 5 Left ≡ spot 2 0) }
    ensures inlay_with_break { let r = folded_record (codes "ab") (inlay 1 Right 1 (codes "x\ny") ∷ []) [] in
        (show r 1 Left ≡ spot 0 1) × (show r 1 Right ≡ spot 1 1) }
    ensures ordinary_source { let r = ordinary_source [] in
        (show r 25 Left ≡ spot 2 4) }
    ensures at_the_end { let r = folded_record (codes "abcdef") [] [] in
        (show r 6 Left ≡ spot 0 6) }
    ensures tab_before_256_cells { let r = settled (replicate 254 97 ++ codes "\tb") [] [] [] 0 in
        (show r 255 Left ≡ spot 0 256) }
    ensures tab_at_256_cells { let r = settled (replicate 256 97 ++ codes "\tb") [] [] [] 0 in
        (show r 257 Left ≡ spot 0 257) }
    ensures changed_back { let r = marked (ten_lines 5) 5 0 in
        (show r 44 Left ≡ spot 10 4) × (show r 52 Left ≡ spot 12 0) }
{}

/// Spots of which the nearest valid one is known. It does nothing.
pub fn worked_clips()
    ensures hanging_blank { let r = settled (codes "hello world") [] [] [] 5 in
        (clip r (spot 0 6) Right ≡ spot 0 5) }
    ensures tab_indent_left { let r = settled (codes "\tfoo bar baz") [] [] [] 10 in
        (clip r (spot 1 2) Left ≡ spot 0 7) }
    ensures tab_indent_right { let r = settled (codes "\tfoo bar baz") [] [] [] 10 in
        (clip r (spot 1 2) Right ≡ spot 1 4) }
    ensures type_inlay { let r = folded_record (codes "let x = 1") (inlay 5 Right 1 (codes ": i32") ∷ []) [] in
        (clip r (spot 0 7) Left ≡ spot 0 5) }
    ensures block_above { let r = settled (codes "abc") [] [] (block 0 1 Above (codes "x" ∷ codes "y" ∷ []) ∷ []) 80 in
        (clip r (spot 1 3) Left ≡ spot 2 0) × (clip r (spot 1 3) Right ≡ spot 2 0) }
    ensures blocks_between { let r = settled (codes "a\nb") [] [] (block 0 2 Below (codes "note" ∷ []) ∷ block 2 1 Above (codes "==" ∷ codes "--" ∷ []) ∷ []) 80 in
        (clip r (spot 2 0) Left ≡ spot 0 1) × (clip r (spot 2 0) Right ≡ spot 4 0) }
    ensures inlay_with_break { let r = folded_record (codes "ab") (inlay 1 Right 1 (codes "x\ny") ∷ []) [] in
        (clip r (spot 1 0) Left ≡ spot 0 1) × (clip r (spot 1 0) Right ≡ spot 1 1) }
    ensures view_answers { let r = folded_record (codes "abc") [] [] in
        (clip r (spot 0 9) Left ≡ spot 0 3) }
{}

/// Spots of which the offset is known. It does nothing.
pub fn worked_backs()
    ensures type_inlay_left { let r = folded_record (codes "let x = 1") (inlay 5 Right 1 (codes ": i32") ∷ []) [] in
        (back r (spot 0 7) Left ≡ 5) }
    ensures type_inlay_right { let r = folded_record (codes "let x = 1") (inlay 5 Right 1 (codes ": i32") ∷ []) [] in
        (back r (spot 0 7) Right ≡ 5) }
    ensures function_fold_before_left { let r = folded_record (codes "fn f() {\n  a\n}\n") [] (fold 8 13 1 ∷ []) in
        (back r (spot 0 8) Left ≡ 8) }
    ensures function_fold_before_right { let r = folded_record (codes "fn f() {\n  a\n}\n") [] (fold 8 13 1 ∷ []) in
        (back r (spot 0 8) Right ≡ 8) }
    ensures function_fold_behind_left { let r = folded_record (codes "fn f() {\n  a\n}\n") [] (fold 8 13 1 ∷ []) in
        (back r (spot 0 9) Left ≡ 13) }
    ensures function_fold_behind_right { let r = folded_record (codes "fn f() {\n  a\n}\n") [] (fold 8 13 1 ∷ []) in
        (back r (spot 0 9) Right ≡ 13) }
    ensures zero_width_space { let r = folded_record (codes "a" ++ 0xE2 ∷ 0x80 ∷ 0x8B ∷ codes "b") [] [] in
        (back r (spot 0 1) Left ≡ 1) × (back r (spot 0 1) Right ≡ 4) }
    ensures combining_mark { let r = folded_record (codes "e" ++ 0xCC ∷ 0x81 ∷ codes "x") [] [] in
        (back r (spot 0 1) Left ≡ 3) × (back r (spot 0 1) Right ≡ 3) }
    ensures block_above { let r = settled (codes "abc") [] [] (block 0 1 Above (codes "x" ∷ codes "y" ∷ []) ∷ []) 80 in
        (back r (spot 99 0) Right ≡ 3) }
    ensures inlay_with_break { let r = folded_record (codes "ab") (inlay 1 Right 1 (codes "x\ny") ∷ []) [] in
        (back r (spot 0 2) Right ≡ 1) }
    ensures ordinary_source_folded { let r = ordinary_source (fold 11 67 1 ∷ []) in
        (back r (spot 1 12) Right ≡ 67) }
    ensures view_answers { let r = folded_record (codes "abc") [] [] in
        (back r (spot 0 9) Right ≡ 3) }
{}

/// Operations of which it is known how far they reach. It does nothing.
pub fn worked_reaches()
    ensures letter { reach_of_operation (Replace 0 0 (codes "x")) (folded_record (codes "ab\ncd") [] [])
        ≡ 3 }
    ensures two_lines { reach_of_operation (Replace 1 4 []) (folded_record (codes "ab\ncd") [] [])
        ≡ 4 }
    ensures removed_pieces { reach_of_operation (Replace 0 128 []) (folded_record (replicate 128 97) [] [])
        ≡ 4 }
    ensures entries { let below = inlay 5 Right 1 (codes "x") ∷ [] in let above = block 2 1 Above (codes "-- b" ∷ []) ∷ [] in
        reach_of_operation (Replace 0 0 (codes "x")) (settled (codes "a\nb\nc") below (fold 1 4 1 ∷ []) above 80)
        ≡ 5 }
    ensures inlay { reach_of_operation (AddInlay (inlay 0 Right 2 (codes "x\ny"))) (folded_record (codes "ab") (inlay 1 Left 1 (codes "z") ∷ []) [])
        ≡ 5 }
    ensures tab { reach_of_operation (SetTab 8) (folded_record (codes "a\nb") [] [])
        ≡ 4 }
    ensures width { reach_of_operation (SetWidth 9) (folded_record (codes "a\nb") [] [])
        ≡ 0 }
{}
