//! What reading a line says of the verdict on it; lines whose commands and verdicts are known, and how known answers
//! print.
ghost use Rattle.std.specs.List.{All};
ghost use Rattle.std.specs.Prelude.{◌≡◌, ◌≤◌, ◌+◌, ℕ, List, length, [], ◌∷◌, true, false, codes, replicate, Some, None};
ghost use Rattle.cell_units.specs.declared.fault.Fault.TheVariants as faults;
ghost use Rattle.cell_units.specs.declared.fault.Refusal.{Refusal};
ghost use Rattle.cell_units.specs.declared.fault.Refusal.TheVariants.{NotCommand, BadRange};
ghost use Rattle.cell_units.specs.declared.place.Bias.TheVariants.{Left, Right};
ghost use Rattle.cell_units.specs.declared.place.Motion.TheVariants as motions;
ghost use Rattle.cell_units.specs.Operation.{AddFold, AddInlay};
ghost use Rattle.cell_units.specs.Record.{Record, opened};
ghost use Rattle.plain_rows.specs.Rows.{head_kind, more_kind, block_kind};
ghost use Rattle.plain_rows.specs.Worked.{spot};
ghost use Rattle.display_sheet.specs.declared.change.Splice.{Splice};
ghost use Rattle.edit_script.specs.declared.asked.Form.{Form};
ghost use Rattle.edit_script.specs.declared.asked.Form.TheVariants.{First, Second};
ghost use Rattle.edit_script.specs.declared.asked.CaretQuery.{CaretQuery};
ghost use Rattle.edit_script.specs.declared.asked.CaretQuery.TheVariants as carets;
ghost use Rattle.edit_script.specs.declared.asked.Query.TheVariants as queries;
ghost use Rattle.display_sheet.specs.Changes.{Edit, inlay_of, fold_of};
ghost use Rattle.edit_script.specs.Commands.{Command, Apply, Ask, AskCaret, Settle, one, greatest_number, command_of};
ghost use Rattle.edit_script.specs.declared.blank.TheConstants.{LINE_LIMIT};
ghost use Rattle.edit_script.specs.Verdict.{Accepted, Refused, IsLineRefused, refused_or, command_refusal, is_over, is_blank, verdict};
ghost use Rattle.edit_script.specs.Laws.{IsWritable, two_rows, written_edit, written_rows};
ghost use Rattle.edit_script.specs.Script.{asking_from, filled_from, form_of, is_header};
ghost use Rattle.edit_script.specs.Printed.{refusal_text, row_lines};

/// What reading a line says of the verdict on it, on every record of the text. A question about a caret is never
/// refused. It does nothing.
pub fn verdict_laws()
    ensures unread { (form : Form) (r : Record) (line : List ℕ) (refusal : Refusal)
        → IsLineRefused form r.text line (faults.Refused refusal) → verdict form r line ≡ Refused refusal }
    ensures read { (form : Form) (r : Record) (line : List ℕ) (command : Command)
        → length line ≤ LINE_LIMIT
        → command_of form r.text line ≡ Some command → is_over command ≡ false
        → verdict form r line ≡ refused_or command (command_refusal r command) }
    ensures caret { (form : Form) (r : Record) (line : List ℕ) (query : CaretQuery)
        → length line ≤ LINE_LIMIT → command_of form r.text line ≡ Some (AskCaret query)
        → verdict form r line ≡ Accepted (AskCaret query) }
{}

/// The line that is written for an edit is read as that edit, whatever its numbers and texts. The line that is written
/// for a question for rows is read as that question. It does nothing.
pub fn written_laws()
    ensures edit { (text : List ℕ) (splices : List Splice) → All IsWritable splices
        → command_of First text (written_edit splices) ≡ Some (Apply (Edit splices)) }
    ensures rows { (text : List ℕ) (first count : ℕ)
        → first ≤ greatest_number → count ≤ greatest_number
        → command_of First text (written_rows first count) ≡ Some (Ask (queries.Rows first count)) }
{}

/// What the header of a script changes. A command without points stays what it is, a blank line and the header are
/// skipped, and no other line. It does nothing.
pub fn form_laws()
    ensures extends { (text line : List ℕ) (command : Command)
        → command_of First text line ≡ Some command → command_of Second text line ≡ Some command }
    ensures no_line { (number : ℕ) → (form_of [] ≡ First) × (asking_from number [] ≡ []) }
    ensures blank { (number : ℕ) (line : List ℕ) (lines : List (List ℕ)) → is_blank line ≡ true
        → (form_of (line ∷ lines) ≡ form_of lines)
        × (asking_from number (line ∷ lines) ≡ asking_from (number + 1) lines) }
    ensures headed { (number : ℕ) (line : List ℕ) (lines : List (List ℕ)) → is_blank line ≡ false
        → is_header line ≡ true → (form_of (line ∷ lines) ≡ Second)
        × (asking_from number (line ∷ lines) ≡ filled_from (number + 1) lines) }
    ensures unheaded { (number : ℕ) (line : List ℕ) (lines : List (List ℕ)) → is_blank line ≡ false
        → is_header line ≡ false → (form_of (line ∷ lines) ≡ First)
        × (asking_from number (line ∷ lines) ≡ (number, line) ∷ filled_from (number + 1) lines) }
    ensures without { (number : ℕ) (lines : List (List ℕ))
        → All (λ line. is_header line ≡ false) lines → (form_of lines ≡ First) × (asking_from number lines ≡ filled_from number lines) }
{}

/// Lines of every form, and lines that have none. It does nothing.
pub fn worked_commands()
    ensures rows { command_of First [] (codes "{\"rows\":[0,9]}") ≡ Some (Ask (queries.Rows 0 9)) }
    ensures spaced { command_of First [] (codes " { \"rows\" : [ 2 , 4 ] } \r")
        ≡ Some (Ask (queries.Rows 2 4)) }
    ensures edit { command_of First [] (codes "{\"edit\":[[1,2,\"XY\"]]}")
        ≡ Some (Apply (Edit (record { start = 1; end = 2; text = codes "XY" } ∷ []))) }
    ensures batch { command_of First [] (codes "{\"edit\":[[0,1,\"\"],[3,3,\"\\n\"]]}")
        ≡ Some (Apply (Edit (
        record { start = 0; end = 1; text = [] }
        ∷ record { start = 3; end = 3; text = 10 ∷ [] }
        ∷ []))) }
    ensures no_operation { command_of First [] (codes "{\"edit\":[]}") ≡ Some (Apply (Edit [])) }
    ensures greatest { command_of First [] (codes "{\"rows\":[4294967296,4294967295]}")
        ≡ Some (Ask (queries.Rows 4294967295 4294967295)) }
    ensures last_stands { command_of First [] (codes "{\"rows\":[7,7],\"rows\":[0,1]}")
        ≡ Some (Ask (queries.Rows 0 1)) }
    ensures no_key { command_of First [] (codes "{}") ≡ None }
    ensures two_keys { command_of First [] (codes "{\"edit\":[],\"rows\":[0,1]}") ≡ None }
    ensures another_key { command_of First [] (codes "{\"row\":[0,1]}") ≡ None }
    ensures no_object { command_of First [] (codes "[]") ≡ None }
    ensures one_item { command_of First [] (codes "{\"rows\":[0]}") ≡ None }
    ensures three_items { command_of First [] (codes "{\"rows\":[0,1,2]}") ≡ None }
    ensures below_zero { command_of First [] (codes "{\"rows\":[0,-1]}") ≡ None }
    ensures fraction { command_of First [] (codes "{\"rows\":[0,1.0]}") ≡ None }
    ensures exponent { command_of First [] (codes "{\"rows\":[0,1e0]}") ≡ None }
    ensures minus_zero { command_of First [] (codes "{\"rows\":[-0,1]}") ≡ None }
    ensures over_64_bits { command_of First [] (codes "{\"rows\":[0,18446744073709551616]}")
        ≡ None }
    ensures all_64_bits { command_of First [] (codes "{\"rows\":[0,18446744073709551615]}")
        ≡ Some (Ask (queries.Rows 0 4294967295)) }
    ensures brackets { command_of First [] (replicate 200 91) ≡ None }
    ensures cut_off { command_of First [] (codes "{\"rows\":[0,") ≡ None }
    ensures text_missing { command_of First [] (codes "{\"edit\":[[0,1]]}") ≡ None }
    ensures flat_edit { command_of First [] (codes "{\"edit\":[0,1,\"\"]}") ≡ None }
    ensures not_utf8 { command_of First [] (255 ∷ []) ≡ None }
{}

/// Lines that ask about a caret or a selection, and such that have no form. It does nothing.
pub fn worked_carets()
    ensures left { command_of First [] (codes "{\"move\":[0,4,4,\"left\"]}")
        ≡ Some (AskCaret (carets.Move (spot 0 4) 4 motions.Left)) }
    ensures right { command_of First [] (codes "{\"move\":[0,5,5,\"right\"]}")
        ≡ Some (AskCaret (carets.Move (spot 0 5) 5 motions.Right)) }
    ensures up { command_of First [] (codes "{\"move\":[1,2,3,\"up\"]}")
        ≡ Some (AskCaret (carets.Move (spot 1 2) 3 motions.Up)) }
    ensures down { command_of First [] (codes "{\"move\":[1,5,9,\"down\"]}")
        ≡ Some (AskCaret (carets.Move (spot 1 5) 9 motions.Down)) }
    ensures start { command_of First [] (codes "{\"move\":[1,5,9,\"start\"]}")
        ≡ Some (AskCaret (carets.Move (spot 1 5) 9 motions.Start)) }
    ensures end { command_of First [] (codes "{\"move\":[1,5,9,\"end\"]}")
        ≡ Some (AskCaret (carets.Move (spot 1 5) 9 motions.End)) }
    ensures select { command_of First [] (codes "{\"select\":[0,3,1,2]}")
        ≡ Some (AskCaret (carets.Select (spot 0 3) (spot 1 2))) }
    ensures backwards { command_of First [] (codes "{\"select\":[1,2,0,3]}")
        ≡ Some (AskCaret (carets.Select (spot 1 2) (spot 0 3))) }
    ensures greatest { command_of First []
        (codes "{\"move\":[4294967296,0,18446744073709551615,\"end\"]}")
        ≡ Some (AskCaret (carets.Move (spot 4294967295 0) 4294967295 motions.End)) }
    ensures second_form { command_of Second [] (codes "{\"select\":[0,3,1,2]}")
        ≡ Some (AskCaret (carets.Select (spot 0 3) (spot 1 2))) }
    ensures another_motion { command_of First [] (codes "{\"move\":[0,0,0,\"above\"]}") ≡ None }
    ensures motion_missing { command_of First [] (codes "{\"move\":[0,0,0]}") ≡ None }
    ensures fifth_item { command_of First [] (codes "{\"select\":[0,3,1,2,0]}") ≡ None }
    ensures bias { command_of First [] (codes "{\"select\":[0,3,\"left\",2]}") ≡ None }
    ensures below_zero { command_of First [] (codes "{\"move\":[0,0,-1,\"up\"]}") ≡ None }
    ensures point { command_of Second two_rows
        (codes "{\"select\":[[0,0,\"left\"],3,1,2]}") ≡ None }
    ensures lists { command_of Second two_rows (codes "{\"select\":[[0,3],[1,2]]}") ≡ None }
{}

/// What lines are on a text of three bytes. It does nothing.
pub fn worked_verdicts()
    ensures blank { (is_blank [] ≡ true) × (is_blank (codes " \t\r") ≡ true)
        × (is_blank (codes " x") ≡ false) }
    ensures accepted { verdict First (opened (codes "abc")) (codes "{\"edit\":[[1,3,\"\"]]}")
        ≡ Accepted (Apply (Edit (record { start = 1; end = 3; text = [] } ∷ []))) }
    ensures past_the_end { verdict First (opened (codes "abc")) (codes "{\"edit\":[[1,4,\"\"]]}")
        ≡ Refused BadRange }
    ensures backwards { verdict First (opened (codes "abc")) (codes "{\"edit\":[[2,1,\"\"]]}")
        ≡ Refused BadRange }
    ensures out_of_order { verdict First (opened (codes "abc"))
        (codes "{\"edit\":[[1,2,\"\"],[0,1,\"\"]]}")
        ≡ Refused BadRange }
    ensures rows { verdict First (opened (codes "abc")) (codes "{\"rows\":[9,9]}")
        ≡ Accepted (Ask (queries.Rows 9 9)) }
    ensures no_command { verdict First (opened (codes "abc")) (codes "{\"rows\":9}")
        ≡ Refused NotCommand }
{}

/// What lines with points are on a text of two rows. It does nothing.
pub fn worked_points()
    ensures edit { command_of Second two_rows
        (codes "{\"edit\":[[[0,2,\"left\"],[0,2,\"right\"],\"e\"]]}")
        ≡ Some (Apply (Edit (record { start = 1; end = 3; text = codes "e" } ∷ []))) }
    ensures display { command_of Second two_rows (codes "{\"display\":[[9,0,\"left\"],\"left\"]}")
        ≡ Some (Ask (queries.Show 8 Left)) }
    ensures fold { command_of Second two_rows (codes "{\"fold\":[1,[0,9,\"left\"],[1,0,\"left\"]]}")
        ≡ Some (one (AddFold (fold_of 1 6 7))) }
    ensures inlay { command_of Second two_rows
        (codes "{\"inlay\":[1,[1,1,\"left\"],\"right\",\":\"]}")
        ≡ Some (one (AddInlay (inlay_of 1 8 Right (codes ":")))) }
    ensures either { command_of Second two_rows
        (codes "{\"edit\":[[0,[0,1,\"left\"],\"\"],[[0,6,\"left\"],6,\"\"]]}")
        ≡ Some (Apply (Edit (
        record { start = 0; end = 1; text = [] }
        ∷ record { start = 6; end = 6; text = [] }
        ∷ []))) }
    ensures row_over { command_of Second two_rows
        (codes "{\"display\":[[4294967296,0,\"left\"],\"left\"]}")
        ≡ Some (Ask (queries.Show 8 Left)) }
    ensures column_over { command_of Second two_rows
        (codes "{\"display\":[[0,18446744073709551615,\"right\"],\"left\"]}")
        ≡ Some (Ask (queries.Show 6 Left)) }
    ensures first_form { (command_of First two_rows
        (codes "{\"edit\":[[[0,2,\"left\"],[0,2,\"right\"],\"e\"]]}") ≡ None)
        × (command_of First two_rows (codes "{\"display\":[[9,0,\"left\"],\"left\"]}") ≡ None) }
    ensures fourth_item { command_of Second two_rows
        (codes "{\"display\":[[0,0,\"left\",0],\"left\"]}") ≡ None }
    ensures two_items { command_of Second two_rows (codes "{\"display\":[[0,0],\"left\"]}") ≡ None }
    ensures no_bias { command_of Second two_rows
        (codes "{\"display\":[[0,0,\"up\"],\"left\"]}") ≡ None }
    ensures below_zero { command_of Second two_rows
        (codes "{\"display\":[[0,-1,\"left\"],\"left\"]}") ≡ None }
    ensures fraction { command_of Second two_rows
        (codes "{\"display\":[[1.0,0,\"left\"],\"left\"]}") ≡ None }
    ensures in_rows { command_of Second two_rows (codes "{\"rows\":[[0,0,\"left\"],1]}") ≡ None }
    ensures in_buffer { command_of Second two_rows
        (codes "{\"buffer\":[[0,0,\"left\"],0,\"left\"]}") ≡ None }
    ensures as_row { command_of Second two_rows
        (codes "{\"block\":[1,\"above\",[0,0,\"left\"],[\"x\"]]}") ≡ None }
    ensures as_id { command_of Second two_rows (codes "{\"unfold\":[0,0,\"left\"]}") ≡ None }
    ensures point_of_points { command_of Second two_rows
        (codes "{\"display\":[[[0,0,\"left\"],0,\"left\"],\"left\"]}") ≡ None }
{}

/// What lines with points are on a record of that text: all points are those of the text before. It does nothing.
pub fn worked_point_verdicts()
    ensures batch { verdict Second (opened two_rows)
        (codes "{\"edit\":[[[0,0,\"left\"],1,\"abc\"],[[1,0,\"left\"],[1,9,\"left\"],\"y\"]]}")
        ≡ Accepted (Apply (Edit (
        record { start = 0; end = 1; text = codes "abc" }
        ∷ record { start = 7; end = 8; text = codes "y" }
        ∷ []))) }
    ensures backwards { verdict Second (opened two_rows)
        (codes "{\"edit\":[[[1,0,\"left\"],[0,0,\"left\"],\"\"]]}")
        ≡ Refused BadRange }
    ensures no_range { verdict Second (opened two_rows)
        (codes "{\"fold\":[1,[0,9,\"left\"],[0,8,\"left\"]]}")
        ≡ Refused BadRange }
    ensures off_a_boundary { verdict Second (opened two_rows)
        (codes "{\"edit\":[[2,[0,9,\"left\"],\"\"]]}")
        ≡ Refused BadRange }
    ensures late_header { verdict Second (opened two_rows)
        (codes "{\"script\":2}")
        ≡ Refused NotCommand }
{}

/// Lines that are headers, lines that are none, and scripts with a header and without one. It does nothing.
pub fn worked_headers()
    ensures header { (is_header (codes "{\"script\":2}") ≡ true)
        × (is_header (codes "\t{ \"script\" : 2 } \r") ≡ true) }
    ensures last_stands { (is_header (codes "{\"script\":2,\"script\":2}") ≡ true)
        × (is_header (codes "{\"script\":1,\"script\":2}") ≡ true) }
    ensures first_falls { is_header (codes "{\"script\":2,\"script\":1}") ≡ false }
    ensures spelled { is_header (codes "{\"\\u0073cript\":2}") ≡ true }
    ensures another_number { (is_header (codes "{\"script\":3}") ≡ false)
        × (is_header (codes "{\"script\":18446744073709551618}") ≡ false) }
    ensures fraction { is_header (codes "{\"script\":2.0}") ≡ false }
    ensures text { (is_header (codes "{\"script\":\"2\"}") ≡ false)
        × (is_header (codes "{\"script\":[2]}") ≡ false) }
    ensures second_key { is_header (codes "{\"script\":2,\"tab\":4}") ≡ false }
    ensures another_key { is_header (codes "{\"scripts\":2}") ≡ false }
    ensures no_key { is_header (codes "{}") ≡ false }
    ensures no_object { (is_header (codes "[\"script\",2]") ≡ false)
        × (is_header (codes "\"script\"") ≡ false)
        × (is_header (codes "2") ≡ false) }
    ensures two_values { is_header (codes "{\"script\":2}{\"script\":2}") ≡ false }
    ensures blank { (is_header (codes "") ≡ false)
        × (is_header (codes " ") ≡ false) }
    ensures cut_off { is_header (codes "{\"script\":2") ≡ false }
    ensures not_utf8 { is_header (255 ∷ codes "{\"script\":2}") ≡ false }
    ensures behind_blanks { let tab = codes "{\"tab\":4}" in
        let script = [] ∷ codes " \t" ∷ codes "{\"script\":2}" ∷ [] ∷ tab ∷ [] in
        (form_of script ≡ Second) × (asking_from 1 script ≡ (5, tab) ∷ []) }
    ensures again { let header = codes "{\"script\":2}" in
        (form_of (header ∷ header ∷ []) ≡ Second)
        × (asking_from 1 (header ∷ header ∷ []) ≡ (2, header) ∷ []) }
    ensures late { let header = codes "{\"script\":2}" in
        let tab = codes "{\"tab\":4}" in
        (form_of (tab ∷ header ∷ []) ≡ First)
        × (asking_from 1 (tab ∷ header ∷ []) ≡ (1, tab) ∷ (2, header) ∷ []) }
    ensures blanks_alone { (form_of ([] ∷ [] ∷ []) ≡ First) × (asking_from 1 ([] ∷ [] ∷ []) ≡ []) }
{}

/// How rows and refusals print. It does nothing.
pub fn worked_lines()
    ensures rows { row_lines 9 (
        record { kind = head_kind; text = codes "ab" }
        ∷ record { kind = more_kind; text = [] }
        ∷ record { kind = block_kind; text = codes "--" }
        ∷ [])
        ≡ codes "9 t|ab" ∷ codes "10 w|" ∷ codes "11 b|--" ∷ [] }
    ensures refusal { refusal_text BadRange ≡ codes "! 2" }
{}
