//! Draws, words and lines that an independent program gives by the same rules.
ghost use Rattle.std.specs.Prelude.{◌≡◌, ◌++◌, [], ◌∷◌, codes};
ghost use Rattle.generated_input.specs.Drawing.{draw, times};
ghost use Rattle.generated_input.specs.Made.{line, script_line, script_lines, word};

/// The first draws of a number below 1000 from three numbers. It does nothing.
pub fn worked_draws()
    ensures zero { (times 4 (draw 1000) 0).value ≡ 807 ∷ 424 ∷ 937 ∷ 236 ∷ [] }
    ensures seven { (times 4 (draw 1000) 7).value ≡ 278 ∷ 231 ∷ 753 ∷ 673 ∷ [] }
    ensures greatest { (times 4 (draw 1000) 4294967295).value ≡ 759 ∷ 36 ∷ 824 ∷ 251 ∷ [] }
    ensures state { (draw 1000 7).state ≡ 9098160460397411210 }
{}

/// The first words and lines of a text from some numbers. It does nothing.
pub fn worked_texts()
    ensures words { ((word 0).value ≡ codes "mpybvytcb") × ((word 7).value ≡ codes "fxhtzgify")
        × ((word 4294967295).value ≡ codes "syhwtqc") }
    ensures behind { (word 7).state ≡ 13090078374315816025 }
    ensures no_words { ((line 20).value ≡ codes "\n") × ((line 12).value ≡ codes "\t\t\t\n") }
    ensures zero { (line 0).value ≡ codes "\t\t\tybvytcbx u yyrmxzoj shxfdfel\n" }
    ensures seven { (line 7).value
        ≡ codes "\t\th zg f lpwerkdv rklqsfi rjayhadft rewzfwo ayaeuyits taecvp dulji mapaod\n" }
    ensures second { (line (line 7).state).value ≡ codes "poie swt szxfjb oo xgjra\n" }
{}

/// Lines of a script for a text of 50 or 100 bytes. It does nothing.
pub fn worked_scripts()
    ensures edit { (script_line 12 100 2).value.bytes ≡ codes "{\"edit\":[[63,79,\"vlaapw\"]]}" }
    ensures shorter { (script_line 12 100 2).value.text_length ≡ 90 }
    ensures inlay { (script_line 12 100 1).value.bytes
        ≡ codes "{\"inlay\":[12,23,\"right\",\": skdy\"]}" }
    ensures fold { (script_line 12 100 12).value.bytes ≡ codes "{\"fold\":[12,24,27]}" }
    ensures block { (script_line 12 100 4).value.bytes
        ≡ codes "{\"block\":[12,\"above\",3692,[\"zp\"]]}" }
    ensures width { (script_line 12 100 0).value.bytes ≡ codes "{\"width\":44}" }
    ensures rows { (script_line 12 100 7).value.bytes ≡ codes "{\"rows\":[3231,5]}" }
    ensures display { (script_line 12 100 3).value.bytes ≡ codes "{\"display\":[69,\"left\"]}" }
    ensures last_edit { (script_line 12 100 9).value.bytes
        ≡ codes "{\"edit\":[[39,71,\"npiprvhns\"]]}" }
    ensures cut_at_the_end { (script_lines 4 1 50 0).value
        ≡ codes "{\"width\":44}\n{\"width\":56}\n{\"fold\":[3,32,50]}\n{\"fold\":[4,24,50]}\n" }
    ensures growing { (script_lines 4 1 50 6).value
        ≡ codes "{\"edit\":[[50,50,\"ireq\"]]}\n{\"inlay\":[2,14,\"right\",\": ckynejtnx\"]}\n"
        ++ codes "{\"edit\":[[19,34,\"flfyxyhb\"]]}\n{\"edit\":[[26,34,\"vaafqhv\"]]}\n" }
{}
