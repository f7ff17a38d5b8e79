//! Worked rows of the definitions: texts, operations and display lines of which the outcome is known.
ghost use Rattle.std.specs.Prelude.{◌≡◌, ◌++◌, List, [], ◌∷◌, codes, flat_map, map, true, false};
ghost use Rattle.std.specs.List.{range_with_len};
ghost use Rattle.cell_units.specs.declared.place.Bias.TheVariants.{Left, Right};
ghost use Rattle.cell_units.specs.declared.place.Side.TheVariants.{Above, Below};
ghost use Rattle.cell_units.specs.Text.{clean, is_boundary, row_end, row_of, row_start};
ghost use Rattle.cell_units.specs.Anchor.{move};
ghost use Rattle.cell_units.specs.Record.{line_count, opened, plain_marks};
ghost use Rattle.cell_units.specs.Operation.{AddBlock, AddFold, AddInlay, RemoveBlock, RemoveFold, RemoveInlay, Replace, SetTab, SetWidth, moved_blocks, moved_folds, moved_inlays, operated};
ghost use Rattle.cell_units.specs.Inlaid.{bytes_of, inlaid, inlaid_place, placeholder};
ghost use Rattle.cell_units.specs.Folded.{display_lines, folded_place, line_of, place_in_line, span_end, span_start};
ghost use Rattle.cell_units.specs.Pieces.{folded_lines};
ghost use Rattle.cell_units.specs.Touched.{EachLine, NoLine, touched, touched_after, touched_before};
ghost use Rattle.cell_units.specs.LineCounts.{line_of_row_end, line_of_row_start};
ghost use Rattle.cell_units.specs.Points.{offset_at};
ghost use Rattle.cell_units.specs.BufferLines.{buffer_lines, line_start, line_starts};
ghost use Rattle.cell_units.specs.Layers.{place_of, point_of, shown_lines, shown_text, span_of, unfolded};
ghost use Rattle.cell_units.specs.Folding.{front_pieces, rest_pieces};
ghost use Rattle.cell_units.specs.Worked.{block, buffer_piece, fold, folded_record, hidden_inlay, inlay, inlay_piece, line_texts, mark, placeholder_piece, point};

/// Texts whose clean form, rows, row ends and boundaries are known. It does nothing.
pub fn worked_texts()
    ensures crlf { clean (codes "abc\r\n") ≡ codes "abc\n" }
    ensures lone_returns { clean (codes "a\r\r\nb\r") ≡ codes "a\n\nb\n" }
    ensures line_counts { (line_count [] ≡ 1) × (line_count (codes "abc\n") ≡ 2) }
    ensures opened_text { let r = opened (codes "ab\n") in
        (r.marks ≡ mark 0 0 ∷ mark 1 0 ∷ []) × (r.next_stamp ≡ 2) × (r.tab ≡ 4) × (r.width ≡ 80)
        × (r.inlays ≡ []) × (r.folds ≡ []) × (r.blocks ≡ []) }
    ensures fresh_marks { plain_marks 5 2 ≡ mark 5 0 ∷ mark 6 0 ∷ [] }
    ensures feed_at_the_end { buffer_lines (codes "abc\n") ≡ codes "abc" ∷ [] ∷ [] }
    ensures starts_behind_feeds { line_starts (codes "a\n\nbc") ≡ 0 ∷ 2 ∷ 3 ∷ [] }
    ensures rows { let text = codes "abc\nd" in
        map (row_of text) (range_with_len 0 6) ≡ 0 ∷ 0 ∷ 0 ∷ 0 ∷ 1 ∷ 1 ∷ [] }
    ensures row_starts { let text = codes "abc\nd" in
        map (row_start text) (range_with_len 0 6) ≡ 0 ∷ 0 ∷ 0 ∷ 0 ∷ 4 ∷ 4 ∷ [] }
    ensures row_ends { let text = codes "abc\nd" in
        map (row_end text) (range_with_len 0 6) ≡ 3 ∷ 3 ∷ 3 ∷ 3 ∷ 5 ∷ 5 ∷ [] }
    ensures combining_mark { map (is_boundary (codes "e" ++ 0xCC ∷ 0x81 ∷ codes "x")) (range_with_len 0 6)
        ≡ true ∷ true ∷ false ∷ true ∷ true ∷ false ∷ [] }
    ensures point_in_character { let text = codes "a\nb" ++ 0xC3 ∷ 0xA9 ∷ codes "c\n" in
        (offset_at text (point 1 2) Left ≡ 3) × (offset_at text (point 1 2) Right ≡ 5) × (offset_at text (point 1 3) Left ≡ 5) }
    ensures point_past_ends { let text = codes "a\nb" ++ 0xC3 ∷ 0xA9 ∷ codes "c\n" in
        (offset_at text (point 0 9) Left ≡ 1) × (offset_at text (point 2 1) Right ≡ 7) × (offset_at text (point 3 0) Left ≡ 7) }
{}

/// Operations whose outcome is known; a batch goes from its last range to its first. It does nothing.
pub fn worked_operations()
    ensures marks { (move 3 Left 3 3 2 ≡ 3) × (move 3 Right 3 3 2 ≡ 5) }
    ensures ranges { moved_folds 1 4 0 (fold 1 4 1 ∷ fold 3 6 2 ∷ []) ≡ fold 1 3 2 ∷ [] }
    ensures edit_replaces { line_texts (operated (Replace 1 2 (codes "XY")) (folded_record (codes "abc") [] [])) ≡ codes "aXYc" ∷ [] }
    ensures returns_apart { line_texts (operated (Replace 0 0 (codes "\r")) (folded_record (codes "\n") [] [])) ≡ [] ∷ [] ∷ [] ∷ [] }
    ensures touching_insertions { let r = folded_record (codes "abcdef") (inlay 3 Left 1 (codes "<") ∷ inlay 3 Right 2 (codes ">") ∷ []) [] in
        line_texts (operated (Replace 1 2 (codes "XY")) (operated (Replace 3 3 (codes "1")) (operated (Replace 3 3 (codes "2")) r)))
        ≡ codes "aXYc<12>def" ∷ [] }
    ensures inlay_between_replacements { let r = folded_record (codes "abcdef") (inlay 2 Left 1 (codes "^") ∷ []) [] in
        line_texts (operated (Replace 1 2 (codes "X")) (operated (Replace 2 3 (codes "Y")) r)) ≡ codes "aX^Ydef" ∷ [] }
    ensures fold_edges { (moved_folds 1 1 1 (fold 1 3 1 ∷ []) ≡ fold 2 4 1 ∷ []) × (moved_folds 3 3 1 (fold 1 3 1 ∷ []) ≡ fold 1 3 1 ∷ [])
        × (moved_folds 2 4 1 (fold 1 3 1 ∷ []) ≡ fold 1 3 1 ∷ []) × (moved_folds 1 3 2 (fold 1 3 1 ∷ []) ≡ []) }
    ensures folds_sorted_again { moved_folds 1 3 0 (fold 1 6 1 ∷ fold 2 5 2 ∷ []) ≡ fold 1 3 2 ∷ fold 1 4 1 ∷ [] }
    ensures inlays_sorted_again { moved_inlays 1 2 0 (inlay 1 Right 1 (codes "x") ∷ inlay 2 Left 2 (codes "y") ∷ [])
        ≡ inlay 1 Left 2 (codes "y") ∷ inlay 1 Right 1 (codes "x") ∷ [] }
    ensures block_stays_with_row { moved_blocks 0 0 2 (block 0 1 Above (codes "x" ∷ []) ∷ []) ≡ block 2 1 Above (codes "x" ∷ []) ∷ [] }
    ensures cleaned_length { let r = folded_record (codes "ab") (inlay 1 Left 1 (codes "<") ∷ []) [] in
        line_texts (operated (Replace 0 0 (codes "\r\n")) r) ≡ [] ∷ codes "a<b" ∷ [] }
    ensures fold_dropped { let r = folded_record (codes "abcdefgh") [] (fold 1 4 1 ∷ fold 4 6 3 ∷ []) in
        line_texts (operated (Replace 1 4 []) r) ≡ (codes "a" ++ placeholder ++ codes "gh") ∷ [] }
    ensures touched_rows { let r = folded_record (codes "a\nb\nc\nd") [] [] in
        let op = Replace 2 5 (codes "x\r\ny\r\nz") in
        (touched_before (touched op r) r ≡ false ∷ true ∷ true ∷ false ∷ [])
        × (touched_after (touched op r) (operated op r) ≡ false ∷ true ∷ true ∷ true ∷ false ∷ []) }
    ensures touched_by_inlay_break { let r = folded_record (codes "ab\ncd") (inlay 1 Right 1 (codes "x\ny") ∷ []) [] in
        let op = Replace 2 2 (codes "z") in
        (touched_before (touched op r) r ≡ true ∷ true ∷ false ∷ [])
        × (touched_after (touched op r) (operated op r) ≡ true ∷ true ∷ false ∷ []) }
    ensures touched_when_hidden { let r = folded_record (codes "a\nb\nc") [] (fold 1 4 1 ∷ []) in
        touched_before (touched (Replace 2 3 (codes "x")) r) r ≡ true ∷ [] }
{}

/// What other operations than replacements make of a record, and what they touch. It does nothing.
pub fn worked_changes()
    ensures inlay_breaks_line { let r = folded_record (codes "ab\ncd") [] [] in
        let op = AddInlay (inlay 1 Right 1 (codes "x\ny")) in
        (line_texts (operated op r) ≡ codes "ax" ∷ codes "yb" ∷ codes "cd" ∷ [])
        × (touched_before (touched op r) r ≡ true ∷ false ∷ [])
        × (touched_after (touched op r) (operated op r) ≡ true ∷ true ∷ false ∷ []) }
    ensures inlay_removed { let r = folded_record (codes "ab\ncd") (inlay 1 Right 1 (codes "x\ny") ∷ inlay 4 Left 2 (codes ">") ∷ []) [] in
        let op = RemoveInlay 1 in
        (line_texts (operated op r) ≡ codes "ab" ∷ codes "c>d" ∷ [])
        × (touched_before (touched op r) r ≡ true ∷ true ∷ false ∷ [])
        × (touched_after (touched op r) (operated op r) ≡ true ∷ false ∷ []) }
    ensures inlay_put_in_order { let r = folded_record (codes "abc") (inlay 1 Right 9 (codes "x") ∷ inlay 2 Right 1 (codes "z") ∷ []) [] in
        (operated (AddInlay (inlay 2 Left 3 (codes "y"))) r).inlays
        ≡ inlay 1 Right 9 (codes "x") ∷ inlay 2 Left 3 (codes "y") ∷ inlay 2 Right 1 (codes "z") ∷ [] }
    ensures fold_touches_its_rows { let r = folded_record (codes "a\nb\nc\nd") [] [] in
        let op = AddFold (fold 1 4 1) in
        (touched_before (touched op r) r ≡ true ∷ true ∷ true ∷ false ∷ [])
        × (touched_after (touched op r) (operated op r) ≡ true ∷ false ∷ []) }
    ensures fold_removed { let r = folded_record (codes "a\nb\nc\nd") [] (fold 1 4 1 ∷ []) in
        let op = RemoveFold 1 in
        (touched_before (touched op r) r ≡ true ∷ false ∷ [])
        × (touched_after (touched op r) (operated op r) ≡ true ∷ true ∷ true ∷ false ∷ []) }
    ensures unknown_touches_none { let r = folded_record (codes "ab") [] (fold 0 1 1 ∷ []) in
        (touched (RemoveFold 2) r ≡ NoLine) × (touched (RemoveInlay 1) r ≡ NoLine) × ((operated (RemoveFold 2) r).folds ≡ r.folds) }
    ensures block_at_row_start { let r = folded_record (codes "ab\ncd") [] [] in
        let op = AddBlock 1 7 Below (codes "x" ∷ []) in
        ((operated op r).blocks ≡ block 3 7 Below (codes "x" ∷ []) ∷ [])
        × ((operated (RemoveBlock 7) (operated op r)).blocks ≡ [])
        × (touched op r ≡ NoLine) × (touched (RemoveBlock 7) r ≡ NoLine) }
    ensures tab_touches_each { let r = folded_record (codes "ab\ncd") [] [] in
        ((operated (SetTab 8) r).tab ≡ 8) × (touched (SetTab 4) r ≡ EachLine) × (touched_before (touched (SetTab 4) r) r ≡ true ∷ true ∷ []) }
    ensures width_touches_none { let r = folded_record (codes "ab\ncd") [] [] in
        ((operated (SetWidth 40) r).width ≡ 40) × (touched (SetWidth 40) r ≡ NoLine) × (touched_after (touched (SetWidth 40) r) r ≡ false ∷ false ∷ []) }
{}

/// In which display lines rows start and end, before and after an operation that doesn't touch them. It does nothing.
pub fn worked_rows()
    ensures behind_a_fold { let r = folded_record (codes "a\nb\nc\nd") [] (fold 1 4 1 ∷ []) in
        let s = operated (Replace 0 1 (codes "x\ny")) r in
        (map (line_of_row_start r) (2 ∷ 4 ∷ 6 ∷ []) ≡ 0 ∷ 0 ∷ 1 ∷ []) × (map (line_of_row_start s) (4 ∷ 6 ∷ 8 ∷ []) ≡ 1 ∷ 1 ∷ 2 ∷ [])
        × (map (line_of_row_end r) (2 ∷ 4 ∷ 6 ∷ []) ≡ 0 ∷ 0 ∷ 1 ∷ []) × (map (line_of_row_end s) (4 ∷ 6 ∷ 8 ∷ []) ≡ 1 ∷ 1 ∷ 2 ∷ []) }
    ensures inlay_at_row_end { let r = folded_record (codes "a\nb") (inlay 1 Right 1 (codes "x\ny") ∷ []) [] in
        let s = operated (Replace 2 3 (codes "c\nd")) r in
        (line_of_row_start r 0 ≡ 0) × (line_of_row_start s 0 ≡ 0) × (line_of_row_end r 0 ≡ 1) × (line_of_row_end s 0 ≡ 1) }
    ensures inlay_at_row_start { let r = folded_record (codes "a\nb") (inlay 2 Left 1 (codes "x\ny") ∷ []) [] in
        let s = operated (Replace 0 1 (codes "c\nd")) r in
        (line_of_row_start r 2 ≡ 1) × (line_of_row_start s 4 ≡ 2) × (line_of_row_end r 2 ≡ 2) × (line_of_row_end s 4 ≡ 3) }
    ensures fold_to_row_start { let r = folded_record (codes "a\nb\nc") [] (fold 0 2 1 ∷ []) in
        let s = operated (AddInlay (inlay 0 Left 1 (codes "x\ny"))) r in
        (line_of_row_start r 2 ≡ 0) × (line_of_row_start s 2 ≡ 1) × (line_of_row_end r 2 ≡ 0) × (line_of_row_end s 2 ≡ 1) }
    ensures last_row { let r = folded_record (codes "a\n") [] [] in
        let s = operated (Replace 0 0 (codes "x\n")) r in
        (line_of_row_start r 2 ≡ 1) × (line_of_row_start s 4 ≡ 2) × (line_of_row_end r 2 ≡ 1) × (line_of_row_end s 4 ≡ 2) }
{}

/// Folds, inlays and the display lines that they make. It does nothing.
pub fn worked_lines()
    ensures empty_text { line_texts (folded_record [] [] []) ≡ [] ∷ [] }
    ensures inlaid_text { flat_map bytes_of (inlaid (codes "let x = 1") (inlay 5 Right 1 (codes ": i32") ∷ []))
        ≡ codes "let x: i32 = 1\n" }
    ensures inlaid_returns { flat_map bytes_of (inlaid (codes "ab") (inlay 1 Left 1 (codes "x\r\ny\r") ∷ []))
        ≡ codes "ax\ny\nb\n" }
    ensures inlay_place { let inlays = inlay 3 Left 1 (codes ">") ∷ [] in
        (inlaid_place (codes "abc") inlays 3 Left ≡ 3) × (inlaid_place (codes "abc") inlays 3 Right ≡ 4) }
    ensures type_inlay { folded_lines (codes "let x = 1") (inlay 5 Right 1 (codes ": i32") ∷ []) []
        ≡ (buffer_piece (codes "let x") 0 5 ∷ inlay_piece 1 (codes ": i32") 5 ∷ buffer_piece (codes " = 1") 5 9 ∷ []) ∷ [] }
    ensures fold_two_line_ends { folded_lines (codes "a\nb\nc") [] (fold 1 4 1 ∷ [])
        ≡ (buffer_piece (codes "a") 0 1 ∷ placeholder_piece 1 4 ∷ buffer_piece (codes "c") 4 5 ∷ []) ∷ [] }
    ensures fold_span { let text = codes "a\nb\nc" in
        let lines = display_lines text [] (fold 1 4 1 ∷ []) in
        (map (span_start text) lines ≡ 0 ∷ []) × (map (span_end text) lines ≡ 2 ∷ []) }
    ensures function_fold { let text = codes "fn f() {\n  a\n}\n" in
        let folds = fold 8 13 1 ∷ [] in
        (line_texts (folded_record text [] folds) ≡ (codes "fn f() {" ++ placeholder ++ codes "}") ∷ [] ∷ [])
        × (folded_place text [] folds 10 Left ≡ 8) × (folded_place text [] folds 10 Right ≡ 11) }
    ensures fold_in_fold { line_texts (folded_record (codes "abcdef") [] (fold 1 5 1 ∷ fold 2 3 2 ∷ [])) ≡ (codes "a" ++ placeholder ++ codes "f") ∷ [] }
    ensures inlays_at_fold_edges { let inlays = inlay 1 Right 1 (codes "<") ∷ inlay 2 Left 2 (codes "x\ny") ∷ inlay 4 Left 3 (codes ">") ∷ [] in
        line_texts (folded_record (codes "abcdef") inlays (fold 1 4 1 ∷ [])) ≡ (codes "a<" ++ placeholder ++ codes ">ef") ∷ [] }
    ensures hidden_inlay_place { let inlays = inlay 1 Right 1 (codes "<") ∷ inlay 2 Left 2 (codes "x") ∷ [] in
        let folds = fold 1 4 1 ∷ [] in
        (folded_place (codes "abcdef") inlays folds 2 Left ≡ 2) × (folded_place (codes "abcdef") inlays folds 2 Right ≡ 5) }
    ensures neighbour_inlays { folded_lines (codes "ab") (inlay 1 Left 1 (codes "x") ∷ inlay 1 Left 2 (codes "y") ∷ []) []
        ≡ (buffer_piece (codes "a") 0 1 ∷ inlay_piece 1 (codes "x") 1 ∷ inlay_piece 2 (codes "y") 1 ∷ buffer_piece (codes "b") 1 2 ∷ []) ∷ [] }
    ensures joined_folds { line_texts (folded_record (codes "abcdefgh") [] (fold 1 4 1 ∷ fold 3 6 2 ∷ [])) ≡ (codes "a" ++ placeholder ++ codes "gh") ∷ [] }
    ensures touching_folds { line_texts (folded_record (codes "abcdefgh") [] (fold 1 4 1 ∷ fold 4 6 3 ∷ [])) ≡ (codes "a" ++ placeholder ++ placeholder ++ codes "gh") ∷ [] }
    ensures inlay_with_break { folded_lines (codes "ab") (inlay 1 Right 1 (codes "x\ny") ∷ []) []
        ≡ (buffer_piece (codes "a") 0 1 ∷ inlay_piece 1 (codes "x") 1 ∷ []) ∷ (inlay_piece 1 (codes "y") 1 ∷ buffer_piece (codes "b") 1 2 ∷ []) ∷ [] }
    ensures break_display { let inlays = inlay 1 Right 1 (codes "x\ny") ∷ [] in
        (line_of (codes "ab") inlays [] 1 Left ≡ 0) × (place_in_line (codes "ab") inlays [] 1 Left ≡ 1)
        × (line_of (codes "ab") inlays [] 1 Right ≡ 1) × (place_in_line (codes "ab") inlays [] 1 Right ≡ 1) }
    ensures inlay_only_break { line_texts (folded_record (codes "ab") (inlay 1 Right 1 (codes "\n") ∷ []) []) ≡ codes "a" ∷ codes "b" ∷ [] }
{}

/// What a layer shows whose fold hides an inlay, and its lower layer. It does nothing.
pub fn worked_layers()
    ensures text { shown_text hidden_inlay ≡ codes "a" ++ placeholder ++ codes "d\nef" }
    ensures text_below { shown_text (unfolded hidden_inlay) ≡ codes "ab\nx\nycd\nef" }
    ensures lines { shown_lines hidden_inlay
        ≡ (buffer_piece (codes "a") 0 1 ∷ placeholder_piece 1 4 ∷ buffer_piece (codes "d") 4 5 ∷ [])
        ∷ (buffer_piece (codes "ef") 6 8 ∷ []) ∷ [] }
    ensures places { map (λ o. place_of hidden_inlay o Left) (range_with_len 0 9)
        ≡ 0 ∷ 1 ∷ 1 ∷ 1 ∷ 4 ∷ 5 ∷ 6 ∷ 7 ∷ 8 ∷ [] }
    ensures right_places { map (λ o. place_of hidden_inlay o Right) (range_with_len 0 9)
        ≡ 0 ∷ 1 ∷ 4 ∷ 4 ∷ 4 ∷ 5 ∷ 6 ∷ 7 ∷ 8 ∷ [] }
    ensures point { point_of (shown_text hidden_inlay) (place_of hidden_inlay 7 Left) ≡ point 1 1 }
    ensures spans { map (span_of hidden_inlay) (0 ∷ 1 ∷ []) ≡ (0, 1) ∷ (2, 2) ∷ [] }
    ensures spans_below { map (span_of (unfolded hidden_inlay)) (range_with_len 0 4)
        ≡ (0, 0) ∷ (1, 1) ∷ (1, 1) ∷ (2, 2) ∷ [] }
    ensures starts_below { map (line_start (shown_text (unfolded hidden_inlay))) (range_with_len 0 4)
        ≡ 0 ∷ 3 ∷ 5 ∷ 9 ∷ [] }
    ensures fronts_below { map (front_pieces 1) (shown_lines (unfolded hidden_inlay))
        ≡ (buffer_piece (codes "a") 0 1 ∷ []) ∷ (inlay_piece 1 (codes "x") 3 ∷ []) ∷ (inlay_piece 1 (codes "y") 3 ∷ [])
        ∷ (buffer_piece (codes "e") 6 7 ∷ []) ∷ [] }
    ensures rests_below { map (rest_pieces 2) (shown_lines (unfolded hidden_inlay))
        ≡ [] ∷ [] ∷ (buffer_piece (codes "d") 4 5 ∷ []) ∷ [] ∷ [] }
{}
