//! Laws of the reading, and words whose reading is known.
ghost use Rattle.std.specs.Prelude.{◌≡◌, ◌≤◌, ◌++◌, ℕ, List, [], ◌∷◌, Some, None, IfSome, codes};
ghost use Rattle.std.specs.Prelude.{false, true};
ghost use Rattle.std.specs.Fmt.{decimal};
ghost use Rattle.command_line.specs.declared.limits.TheConstants.{SEED_MOST, WATCHERS_MOST};
ghost use Rattle.command_line.specs.declared.limits.TheConstants.{WORKERS_LEAST, WORKERS_MOST};
ghost use Rattle.command_line.specs.Words.{IsWithinLimits, Key, Token, Word, given, is_dashes};
ghost use Rattle.command_line.specs.Words.{is_name, number, plan_of_tokens, reading};
ghost use Rattle.command_line.specs.Laws.{attached, of_names, of_seed, option_name, spaced};
ghost use Rattle.command_line.specs.Laws.{written_names, written_seed};
ghost use Rattle.command_line.specs.ViewWords.{asks_for_views, of_views, view_reading};

/// What holds of every list of words or tokens. Where an option is among the others makes no difference, nor does
/// whether its value is in its own word. An option that is there twice has no plan. It does nothing.
pub fn order_laws()
    ensures any_place { (before after : List Token) (key : Key) (value : Word) (token : Token)
        → plan_of_tokens (before ++ given key value ∷ token ∷ after)
        ≡ plan_of_tokens (before ++ token ∷ given key value ∷ after) }
    ensures either_form { (key : Key) (value : Word) (words : List Word)
        → is_dashes value ≡ false
        → reading (option_name key ∷ value ∷ words) ≡ reading (attached key value ∷ words) }
    ensures once { (before between after : List Token) (key : Key) (value again : Word)
        → plan_of_tokens (before ++ given key value ∷ (between ++ given key again ∷ after)) ≡ None }
    ensures limits { (words : List Word) → IfSome (reading words) IsWithinLimits }
{}

/// Each number of a range is read from its decimal digits, and from nothing else. It does nothing.
pub fn number_laws()
    ensures read { (least most n : ℕ) → least ≤ n → n ≤ most → most ≤ SEED_MOST
        → number least most (decimal n) ≡ Some n }
    ensures only { (least most n : ℕ) (value : Word)
        → number least most value ≡ Some n → value ≡ decimal n }
{}

/// Each plan is the reading of the words that are written for it. It does nothing.
pub fn written_laws()
    ensures names { (text script : Word) (workers watchers : ℕ)
        → is_name text ≡ true → is_name script ≡ true
        → WORKERS_LEAST ≤ workers → workers ≤ WORKERS_MOST → watchers ≤ WATCHERS_MOST
        → reading (written_names text script workers watchers)
        ≡ Some (of_names text script workers watchers) }
    ensures seed { (seed workers watchers : ℕ) → seed ≤ SEED_MOST
        → WORKERS_LEAST ≤ workers → workers ≤ WORKERS_MOST → watchers ≤ WATCHERS_MOST
        → reading (written_seed seed workers watchers) ≡ Some (of_seed seed workers watchers) }
{}

/// Words that have a reading. It does nothing.
pub fn worked_plans()
    ensures two_names { reading (spaced (codes "a b"))
        ≡ Some (of_names (codes "a") (codes "b") 1 0) }
    ensures options_around { reading (spaced (codes "--watch 2 a b --workers=8"))
        ≡ Some (of_names (codes "a") (codes "b") 8 2) }
    ensures made { reading (spaced (codes "--make 7 --workers 2")) ≡ Some (of_seed 7 2 0) }
    ensures greatest { reading (spaced (codes "--make=4294967295 --watch=8 --workers=16"))
        ≡ Some (of_seed 4294967295 16 8) }
    ensures equals_in_name { reading (spaced (codes "a=b --watch 0 workers"))
        ≡ Some (of_names (codes "a=b") (codes "workers") 1 0) }
{}

/// Words that have none. It does nothing.
pub fn worked_refusals()
    ensures no_words { reading [] ≡ None }
    ensures three_names { reading (spaced (codes "a b c")) ≡ None }
    ensures one_name { reading (spaced (codes "a")) ≡ None }
    ensures no_value { reading (spaced (codes "a b --watch")) ≡ None }
    ensures twice { reading (spaced (codes "a b --watch 1 --watch 1")) ≡ None }
    ensures twice_in_two_forms { reading (spaced (codes "a b --watch=1 --watch 1")) ≡ None }
    ensures leading_zero { reading (spaced (codes "a b --workers 08")) ≡ None }
    ensures hyphen { reading (spaced (codes "a -b")) ≡ None }
    ensures hyphen_alone { reading (spaced (codes "a -")) ≡ None }
    ensures made_with_names { reading (spaced (codes "--make 7 a b")) ≡ None }
    ensures empty_value { reading (spaced (codes "a b --workers=")) ≡ None }
    ensures two_equals { reading (spaced (codes "a b --workers=8=9")) ≡ None }
    ensures hyphen_value { reading (spaced (codes "a b --watch -1")) ≡ None }
    ensures option_as_value { reading (spaced (codes "a b --workers --watch 1")) ≡ None }
    ensures sign { reading (spaced (codes "a b --watch=+1")) ≡ None }
    ensures eleven_digits { reading (spaced (codes "--make 00000000001")) ≡ None }
    ensures too_great { reading (spaced (codes "--make 4294967296")) ≡ None }
    ensures no_worker { reading (spaced (codes "a b --workers 0")) ≡ None }
    ensures seventeen_workers { reading (spaced (codes "a b --workers 17")) ≡ None }
    ensures nine_watchers { reading (spaced (codes "a b --watch 9")) ≡ None }
    ensures dashes { reading (spaced (codes "-- a b")) ≡ None }
    ensures dashes_as_value { reading (spaced (codes "a b --watch --")) ≡ None }
    ensures empty_word { reading (spaced (codes "a ")) ≡ None }
    ensures unknown_option { reading (spaced (codes "a b --work 3")) ≡ None }
    ensures help { reading (spaced (codes "a b --help")) ≡ None }
{}

/// Words that ask for views have no other reading, and words that don't have no plan of views. It does nothing.
pub fn view_laws()
    ensures no_run { (words : List Word) → asks_for_views words ≡ true → reading words ≡ None }
    ensures no_views { (words : List Word) → asks_for_views words ≡ false → view_reading words ≡ None }
{}

/// Words that ask for views. It does nothing.
pub fn worked_views()
    ensures two { view_reading (spaced (codes "--views 2 a b"))
        ≡ Some (of_views (codes "a") (codes "b") 2) }
    ensures least { view_reading (spaced (codes "--views 1 a b"))
        ≡ Some (of_views (codes "a") (codes "b") 1) }
    ensures most { view_reading (spaced (codes "--views 8 a b"))
        ≡ Some (of_views (codes "a") (codes "b") 8) }
    ensures none { view_reading (spaced (codes "--views 0 a b")) ≡ None }
    ensures nine { view_reading (spaced (codes "--views 9 a b")) ≡ None }
    ensures leading_zero { view_reading (spaced (codes "--views 02 a b")) ≡ None }
    ensures one_name { view_reading (spaced (codes "--views 2 a")) ≡ None }
    ensures three_names { view_reading (spaced (codes "--views 2 a b c")) ≡ None }
    ensures attached { view_reading (spaced (codes "--views=2 a b")) ≡ None }
    ensures behind { view_reading (spaced (codes "a b --views 2")) ≡ None }
    ensures hyphen { view_reading (spaced (codes "--views 2 -a b")) ≡ None }
    ensures hyphen_behind { view_reading (spaced (codes "--views 2 a -b")) ≡ None }
    ensures empty_name { view_reading (spaced (codes "--views 2 a ")) ≡ None }
    ensures workers { view_reading (spaced (codes "--views 2 a b --workers 1")) ≡ None }
{}
