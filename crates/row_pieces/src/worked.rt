//! Worked rows: records of which the pieces of each row are known.
ghost use Rattle.std.specs.Prelude.{◌≡◌, ◌++◌, List, [], ◌∷◌, codes, map};
ghost use Rattle.cell_units.specs.declared.place.Bias.TheVariants.{Left, Right};
ghost use Rattle.cell_units.specs.declared.place.Side.TheVariants.{Above, Below};
ghost use Rattle.cell_units.specs.Worked.{block, fold, folded_record, inlay, settled};
ghost use Rattle.plain_rows.specs.Worked.{ordinary_source};
ghost use Rattle.row_pieces.specs.Pieces.{indent_piece, pieces_in_rows};
ghost use Rattle.row_pieces.specs.Worked.{block_piece_of, fold_piece, inlay_piece, tab_piece, text_piece, wide_piece};

/// Records of which the pieces of each row are known. It does nothing.
pub fn worked_pieces()
    // Text and tabs, and a row that goes on with its indent.
    ensures empty_text { pieces_in_rows (folded_record [] [] []) ≡ [] ∷ [] }
    ensures tab_indent { pieces_in_rows (settled (codes "\tfoo bar baz") [] [] [] 10)
        ≡ (tab_piece 4 0 ∷ text_piece (codes "foo ") 1 ∷ [])
        ∷ (indent_piece 4 5 ∷ text_piece (codes "bar ") 5 ∷ [])
        ∷ (indent_piece 4 9 ∷ text_piece (codes "baz") 9 ∷ []) ∷ [] }
    ensures two_tabs { pieces_in_rows (folded_record (codes "a\t\tb") [] [])
        ≡ (text_piece (codes "a") 0 ∷ tab_piece 3 1 ∷ tab_piece 4 2 ∷ text_piece (codes "b") 3 ∷ [])
        ∷ [] }
    // Inlays: one, two at one offset, with a tab, over two rows, and with a line break.
    ensures type_inlay { pieces_in_rows (folded_record (codes "let x = 1") (inlay 5 Right 1 (codes ": i32") ∷ []) [])
        ≡ (text_piece (codes "let x") 0 ∷ inlay_piece 1 (codes ": i32") 5
        ∷ text_piece (codes " = 1") 5 ∷ []) ∷ [] }
    ensures two_inlays { pieces_in_rows (folded_record (codes "ab")
        (inlay 1 Left 7 (codes "<") ∷ inlay 1 Right 3 (codes ">") ∷ []) [])
        ≡ (text_piece (codes "a") 0 ∷ inlay_piece 7 (codes "<") 1 ∷ inlay_piece 3 (codes ">") 1
        ∷ text_piece (codes "b") 1 ∷ []) ∷ [] }
    ensures tab_in_inlay { pieces_in_rows (folded_record (codes "ab") (inlay 1 Right 1 (codes "x\ty") ∷ []) [])
        ≡ (text_piece (codes "a") 0 ∷ inlay_piece 1 (codes "x  y") 1
        ∷ text_piece (codes "b") 1 ∷ []) ∷ [] }
    ensures inlay_over_rows { pieces_in_rows (settled (codes "ab") (inlay 1 Right 1 (codes "xyz") ∷ []) [] [] 3)
        ≡ (text_piece (codes "a") 0 ∷ inlay_piece 1 (codes "xy") 1 ∷ [])
        ∷ (inlay_piece 1 (codes "z") 1 ∷ text_piece (codes "b") 1 ∷ []) ∷ [] }
    ensures inlay_with_break { pieces_in_rows (folded_record (codes "ab") (inlay 1 Right 1 (codes "x\ny") ∷ []) [])
        ≡ (text_piece (codes "a") 0 ∷ inlay_piece 1 (codes "x") 1 ∷ [])
        ∷ (inlay_piece 1 (codes "y") 1 ∷ text_piece (codes "b") 1 ∷ []) ∷ [] }
    // Folds: one, joined ones, ones that touch, and one at the end.
    ensures function_fold { pieces_in_rows (folded_record (codes "fn f() {\n  a\n}\n") [] (fold 8 13 1 ∷ []))
        ≡ (text_piece (codes "fn f() {") 0 ∷ fold_piece 8 13 ∷ text_piece (codes "}") 13 ∷ [])
        ∷ [] ∷ [] }
    ensures joined_folds { pieces_in_rows (folded_record (codes "abcdefgh") [] (fold 1 4 1 ∷ fold 3 6 2 ∷ []))
        ≡ (text_piece (codes "a") 0 ∷ fold_piece 1 6 ∷ text_piece (codes "gh") 6 ∷ []) ∷ [] }
    ensures touching_folds { pieces_in_rows (folded_record (codes "abcdefgh") [] (fold 1 4 1 ∷ fold 4 6 3 ∷ []))
        ≡ (text_piece (codes "a") 0 ∷ fold_piece 1 4 ∷ fold_piece 4 6
        ∷ text_piece (codes "gh") 6 ∷ []) ∷ [] }
    ensures fold_at_the_end { pieces_in_rows (folded_record (codes "ab") [] (fold 1 2 1 ∷ []))
        ≡ (text_piece (codes "a") 0 ∷ fold_piece 1 2 ∷ []) ∷ [] }
    // Wide characters.
    ensures emoji_rows { pieces_in_rows (settled (codes "x" ++ 0xF0 ∷ 0x9F ∷ 0x98 ∷ 0x80 ∷ codes "y") [] [] [] 2)
        ≡ (text_piece (codes "x") 0 ∷ [])
        ∷ (wide_piece (0xF0 ∷ 0x9F ∷ 0x98 ∷ 0x80 ∷ []) 2 1 ∷ [])
        ∷ (text_piece (codes "y") 5 ∷ []) ∷ [] }
    ensures wide_cells { pieces_in_rows (settled
        (codes "ab" ++ 0xE6 ∷ 0xBC ∷ 0xA2 ∷ 0xE5 ∷ 0xAD ∷ 0x97 ∷ codes "cd") [] [] [] 4)
        ≡ (wide_piece (codes "ab" ++ 0xE6 ∷ 0xBC ∷ 0xA2 ∷ []) 4 0 ∷ [])
        ∷ (wide_piece (0xE5 ∷ 0xAD ∷ 0x97 ∷ codes "cd") 4 5 ∷ []) ∷ [] }
    // Blocks, and all of it in one record.
    ensures blocks_between { pieces_in_rows (settled (codes "a\nb") [] [] (block 0 2 Below (codes "note" ∷ [])
        ∷ block 2 1 Above (codes "==" ∷ codes "--" ∷ []) ∷ []) 80)
        ≡ (text_piece (codes "a") 0 ∷ []) ∷ (block_piece_of 2 (codes "note") 0 ∷ [])
        ∷ (block_piece_of 1 (codes "==") 2 ∷ []) ∷ (block_piece_of 1 (codes "--") 2 ∷ [])
        ∷ (text_piece (codes "b") 2 ∷ []) ∷ [] }
    ensures ordinary_source { pieces_in_rows (ordinary_source [])
        ≡ (text_piece (codes "fn main() {") 0 ∷ [])
        ∷ (tab_piece 4 12 ∷ text_piece (codes "let total") 13 ∷ inlay_piece 1 (codes ": u32") 22
        ∷ text_piece (codes " = ") 22 ∷ [])
        ∷ (indent_piece 4 25 ∷ text_piece (codes "items.iter().sum();") 25 ∷ [])
        ∷ (block_piece_of 1 (codes "-- prints it") 45 ∷ [])
        ∷ (tab_piece 4 45 ∷ text_piece (codes "println!(\"{total}\");") 46 ∷ [])
        ∷ (text_piece (codes "}") 67 ∷ []) ∷ [] ∷ [] }
{}
