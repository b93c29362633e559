// What follows from the definitions of functions, texts and values, for a reader who wants to trust them, and for the
// crates above. Each function does nothing: its contract is the law.
#![tactic(auto)]

ghost use Rattle.std.specs.Prelude.{◌≡◌, ℕ, ◌+◌, ◌≤◌, ◌<◌, ◌↔◌, ◌++◌, List, [], ◌∷◌, length, drop, true, false, Option};
ghost use Rattle.std.specs.Prelude.{Some, None, is_some};
ghost use Rattle.xvalue.specs.declared.fun.Fun.{Fun as AnyFun};
ghost use Rattle.xvalue.specs.declared.settings.Settings.{Settings as AnySettings};
ghost use Rattle.calendar.specs.declared.day.DayParts.{DayParts as Parts};
ghost use Rattle.xvalue.specs.Given.{Given};
ghost use Rattle.xvalue.specs.declared.kind.Kind.{Kind as AnyKind};
ghost use Rattle.xvalue.specs.Kinds.{kind_of, same_kind};
ghost use Rattle.xvalue.specs.Signature.{takes_of, gives_of, NumbersAgree};
ghost use Rattle.xvalue.specs.Functions.{applied};
ghost use Rattle.xvalue.specs.Texts.{equal_texts, is_text_before, without_last_blanks, first_place, place_number};
ghost use Rattle.xvalue.specs.Texts.{text_begins_with, stuffed, bytes_cut_from};
ghost use Rattle.xvalue.specs.Laws.{HasShortText, AreReadAsWritten};
ghost use Rattle.xvalue.specs.declared.value.Value.{Value as AnyValue};
ghost use Rattle.xvalue.specs.Shown.{shown_day};
ghost use Rattle.xvalue.specs.Answers.{answered, text_answered};

/// Each function gives a value of the kind that its table says.
pub fn results_have_their_kind()
    ensures { (fun : AnyFun) (settings : AnySettings) (given : Given)
        → kind_of (applied fun settings given) ≡ gives_of fun }
{}

/// Each function takes an argument at least, and at most four.
pub fn arguments_are_few()
    ensures some { (fun : AnyFun) → 0 < length (takes_of fun) }
    ensures few { (fun : AnyFun) → length (takes_of fun) ≤ 4 }
{}

/// No function gives a text of more than 254 bytes.
pub fn texts_are_short()
    ensures { (fun : AnyFun) (settings : AnySettings) (given : Given) → HasShortText (applied fun settings given) }
{}

/// Two texts are equal with EXACT on where they are the same without the blanks at their ends.
pub fn equals_exactly()
    ensures { (cs ds : List ℕ) → (equal_texts true cs ds ≡ true) ↔ (without_last_blanks cs ≡ without_last_blanks ds) }
{}

/// A text equals with EXACT off those that it begins with.
pub fn equals_what_it_begins_with()
    ensures { (cs ds : List ℕ) → (equal_texts false cs ds ≡ true) ↔ ((rest : List ℕ) × (cs ≡ ds ++ rest)) }
{}

/// No text is before itself.
pub fn order_is_strict()
    ensures { (cs : List ℕ) → is_text_before cs cs ≡ false }
{}

/// A first text is before a third where it is before a second that is before the third.
pub fn order_goes_on()
    ensures { (cs ds es : List ℕ) → is_text_before cs ds ≡ true → is_text_before ds es ≡ true
        → is_text_before cs es ≡ true }
{}

/// Blanks at the end of a text change nothing in the order.
pub fn order_goes_on_with_blanks()
    ensures first { (cs ds : List ℕ) → is_text_before (cs ++ 32 ∷ []) ds ≡ is_text_before cs ds }
    ensures second { (cs ds : List ℕ) → is_text_before cs (ds ++ 32 ∷ []) ≡ is_text_before cs ds }
{}

/// The first place at which a text stands in another is the least one at which the rest begins with it.
pub fn first_place_is_least()
    ensures there { (part cs : List ℕ) (n : ℕ) → first_place part cs ≡ Some n
        → text_begins_with (drop n cs) part ≡ true }
    ensures least { (part cs : List ℕ) (n k : ℕ) → first_place part cs ≡ Some n → k < n
        → text_begins_with (drop k cs) part ≡ false }
{}

/// Neither of two texts is before the other exactly where they are the same but for the blanks at their ends.
pub fn order_leaves_blanks_alone()
    ensures { (cs ds : List ℕ)
        → ((is_text_before cs ds ≡ false)
        × (is_text_before ds cs ≡ false)) ↔ (without_last_blanks cs ≡ without_last_blanks ds) }
{}

/// A text has a first place in another exactly where it stands in it. AT gives 0, and `$` false, exactly where it has
/// none.
pub fn nowhere_is_no_place()
    ensures nowhere { (part cs : List ℕ)
        → (first_place part cs ≡ None) ↔ ((k : ℕ) → text_begins_with (drop k cs) part ≡ false) }
    ensures zero { (part cs : List ℕ) → (place_number (first_place part cs) ≡ 0) ↔ (first_place part cs ≡ None) }
    ensures inside { (part cs : List ℕ) → (is_some (first_place part cs) ≡ false) ↔ (first_place part cs ≡ None) }
{}

/// Functions of several kinds take their arguments in the order in which they are written, whatever their kinds.
pub fn arguments_are_read_as_written()
    ensures { (settings : AnySettings) → AreReadAsWritten settings }
{}

/// SUBSTR takes a part out of a text, and STUFF puts another in its place.
pub fn parts_are_taken_and_stuffed()
    ensures taken { (front part rest : List ℕ)
        → bytes_cut_from (length front + 1) (length part) (front ++ part ++ rest) ≡ part }
    ensures stuffed { (front part rest others : List ℕ)
        → stuffed (length front + 1) (length part) others (front ++ part ++ rest) ≡ front ++ others ++ rest }
{}

/// Each function is the one of its number, and no other is.
pub fn functions_have_their_numbers()
    ensures { NumbersAgree }
{}

/// Kinds that are found the same are the same.
pub fn same_kinds_are_equal()
    ensures { (one other : AnyKind) → same_kind one other ≡ true → one ≡ other }
{}

/// A date's text has eight bytes, and ten with CENTURY on, the blank date's too.
pub fn dates_have_their_length()
    ensures off { (settings : AnySettings) (date : Option Parts) → settings.century ≡ false
        → length (shown_day settings date) ≡ 8 }
    ensures on { (settings : AnySettings) (date : Option Parts) → settings.century ≡ true
        → length (shown_day settings date) ≡ 10 }
{}

/// What a line leaves of a value is of the value's kind.
pub fn answers_keep_the_kind()
    ensures { (old : AnyValue) (line : List ℕ) → kind_of (answered old line) ≡ kind_of old }
{}

/// An empty line leaves the value.
pub fn empty_lines_keep_the_value()
    ensures { (old : AnyValue) → answered old [] ≡ old }
{}

/// What a line leaves of a text has the text's length.
pub fn answers_keep_the_length()
    ensures { (old line : List ℕ) → length (text_answered old line) ≡ length old }
{}
