//! The commands, clauses and functions of dBASE III PLUS that the language leaves out.

ghost use Rattle.std.specs.Prelude.{◌≡◌, map};
ghost use Rattle.std.specs.Char.{to_ascii_uppercase};
ghost use Rattle.hints.specs.LeftOut as spec;

use prg_expr::is_word;

/// What a line asks for that is left out, by what stands in its place.
#[derive(Clone, Copy)]
pub enum LeftOut {
    /// LOCATE and CONTINUE.
    Locate,
    /// FIND.
    Find,
    /// COUNT, SUM and AVERAGE.
    Sums,
    /// TOTAL and UPDATE.
    Totals,
    /// LIST and DISPLAY.
    Listings,
    /// CREATE and MODIFY.
    Structures,
    /// COPY, SORT, JOIN, INSERT, and APPEND FROM.
    Copies,
    /// REPORT and LABEL.
    Reports,
    /// SAVE and RESTORE.
    Saved,
    /// BROWSE, EDIT, CHANGE, and APPEND alone.
    ByHand,
    /// INPUT.
    Input,
    /// TEXT and ENDTEXT.
    Texts,
    /// EJECT, SET PRINT, SET DEVICE and the like.
    Printer,
    /// RUN, CALL, LOAD, DIR, ERASE, RENAME, TYPE, IMPORT, EXPORT and their kin.
    Others,
    /// PUBLIC.
    Public,
    /// DECLARE and DIMENSION.
    Arrays,
    /// ON, RETRY, SUSPEND and RESUME, ERROR() and MESSAGE().
    On,
    /// RELEASE ALL.
    ReleaseAll,
    /// PRIVATE ALL.
    PrivateAll,
    /// RETURN TO MASTER.
    ToMaster,
    /// SET RELATION.
    Relation,
    /// SET INDEX and CLOSE INDEX.
    OpenIndexes,
    /// CLOSE PROCEDURE.
    Closing,
    /// SET FORMAT and CLOSE FORMAT.
    Formats,
    /// UNIQUE, as a setting and behind INDEX ON.
    Unique,
    /// SET CARRY.
    Carry,
    /// SET DEFAULT and SET PATH.
    Paths,
    /// READ SAVE.
    ReadSave,
    /// Locks and what is shared.
    Locks,
    /// HELP and ASSIST.
    Prompt,
    /// SET DECIMALS and SET FIXED.
    Decimals,
    /// SET DATE.
    DateForm,
    /// Any other SET.
    OtherSet,
    /// USE .. ALIAS.
    Alias,
    /// CLEAR ALL, CLEAR MEMORY and CLEAR GETS.
    ClearParts,
    /// An @ with anything but SAY and GET, or with neither.
    AtForms,
    /// SELECT 0.
    SelectZero,
    /// A field of another work area, or a variable behind M->, that is to be set.
    OtherAlias,
    /// GO RECORD.
    GoRecord,
    /// ALL, NEXT, RECORD, WHILE and FOR.
    Scopes,
    /// PICTURE and RANGE.
    Pictures,
    /// TYPE().
    Type,
    /// TRANSFORM().
    Transform,
    /// INKEY() and its kin, and SET FUNCTION.
    Keys,
    /// ROW(), COL(), PROW() and PCOL().
    Cursor,
    /// FILE(), OS() and their kin.
    Machine,
    /// ACCESS().
    Access,
    /// DBF(), NDX(), FIELD() and their kin.
    Made,
    /// TIME().
    Time,
    /// SQRT(), EXP(), LOG() and powers.
    Powers,
    /// EOF() and its kin of another work area.
    OtherArea,
}

/// Commands that are left out in every form.
const COMMANDS: [(&str, LeftOut); 48] = [
    ("LOCATE", LeftOut::Locate),
    ("CONTINUE", LeftOut::Locate),
    ("FIND", LeftOut::Find),
    ("COUNT", LeftOut::Sums),
    ("SUM", LeftOut::Sums),
    ("AVERAGE", LeftOut::Sums),
    ("LIST", LeftOut::Listings),
    ("DISPLAY", LeftOut::Listings),
    ("CREATE", LeftOut::Structures),
    ("MODIFY", LeftOut::Structures),
    ("TOTAL", LeftOut::Totals),
    ("UPDATE", LeftOut::Totals),
    ("COPY", LeftOut::Copies),
    ("SORT", LeftOut::Copies),
    ("JOIN", LeftOut::Copies),
    ("INSERT", LeftOut::Copies),
    ("BROWSE", LeftOut::ByHand),
    ("EDIT", LeftOut::ByHand),
    ("CHANGE", LeftOut::ByHand),
    ("REPORT", LeftOut::Reports),
    ("LABEL", LeftOut::Reports),
    ("SAVE", LeftOut::Saved),
    ("RESTORE", LeftOut::Saved),
    ("INPUT", LeftOut::Input),
    ("TEXT", LeftOut::Texts),
    ("ENDTEXT", LeftOut::Texts),
    ("EJECT", LeftOut::Printer),
    ("RUN", LeftOut::Others),
    ("CALL", LeftOut::Others),
    ("LOAD", LeftOut::Others),
    ("DIR", LeftOut::Others),
    ("DIRECTORY", LeftOut::Others),
    ("ERASE", LeftOut::Others),
    ("RENAME", LeftOut::Others),
    ("PUBLIC", LeftOut::Public),
    ("DECLARE", LeftOut::Arrays),
    ("DIMENSION", LeftOut::Arrays),
    ("ON", LeftOut::On),
    ("RETRY", LeftOut::On),
    ("SUSPEND", LeftOut::On),
    ("RESUME", LeftOut::On),
    ("HELP", LeftOut::Prompt),
    ("ASSIST", LeftOut::Prompt),
    ("TYPE", LeftOut::Others),
    ("IMPORT", LeftOut::Others),
    ("EXPORT", LeftOut::Others),
    ("UNLOCK", LeftOut::Locks),
    ("LOGOUT", LeftOut::Locks),
];

/// Commands that are there, but not in every form.
const OTHER_FORMS: [(&str, LeftOut); 2] = [
    ("APPEND", LeftOut::ByHand),
    ("SELECT", LeftOut::SelectZero),
];

/// What SET has behind it.
const SETTINGS: [(&str, LeftOut); 16] = [
    ("RELATION", LeftOut::Relation),
    ("INDEX", LeftOut::OpenIndexes),
    ("DECIMALS", LeftOut::Decimals),
    ("FIXED", LeftOut::Decimals),
    ("DATE", LeftOut::DateForm),
    ("PRINT", LeftOut::Printer),
    ("DEVICE", LeftOut::Printer),
    ("ALTERNATE", LeftOut::Printer),
    ("FORMAT", LeftOut::Formats),
    ("UNIQUE", LeftOut::Unique),
    ("CARRY", LeftOut::Carry),
    ("CONSOLE", LeftOut::Printer),
    ("DEFAULT", LeftOut::Paths),
    ("PATH", LeftOut::Paths),
    ("FUNCTION", LeftOut::Keys),
    ("EXCLUSIVE", LeftOut::Locks),
];

/// What CLEAR has behind it.
const CLEARED: [(&str, LeftOut); 5] = [
    ("ALL", LeftOut::ClearParts),
    ("MEMORY", LeftOut::ClearParts),
    ("GETS", LeftOut::ClearParts),
    ("FIELDS", LeftOut::ClearParts),
    ("TYPEAHEAD", LeftOut::ClearParts),
];

/// What CLOSE has behind it.
const CLOSED: [(&str, LeftOut); 4] = [
    ("INDEX", LeftOut::OpenIndexes),
    ("ALTERNATE", LeftOut::Printer),
    ("FORMAT", LeftOut::Formats),
    ("PROCEDURE", LeftOut::Closing),
];

/// What RELEASE has behind it.
const RELEASED: [(&str, LeftOut); 2] = [("ALL", LeftOut::ReleaseAll), ("MODULE", LeftOut::Others)];

/// Clauses within a line.
const CLAUSES: [(&str, LeftOut); 10] = [
    ("ALL", LeftOut::Scopes),
    ("NEXT", LeftOut::Scopes),
    ("RECORD", LeftOut::Scopes),
    ("WHILE", LeftOut::Scopes),
    ("FOR", LeftOut::Scopes),
    ("ALIAS", LeftOut::Alias),
    ("PICTURE", LeftOut::Pictures),
    ("RANGE", LeftOut::Pictures),
    ("UNIQUE", LeftOut::Unique),
    ("EXCLUSIVE", LeftOut::Locks),
];

/// Functions, whatever their arguments.
const FUNCTIONS: [(&str, LeftOut); 31] = [
    ("TYPE", LeftOut::Type),
    ("TRANSFORM", LeftOut::Transform),
    ("TIME", LeftOut::Time),
    ("SQRT", LeftOut::Powers),
    ("EXP", LeftOut::Powers),
    ("LOG", LeftOut::Powers),
    ("INKEY", LeftOut::Keys),
    ("READKEY", LeftOut::Keys),
    ("FKLABEL", LeftOut::Keys),
    ("FKMAX", LeftOut::Keys),
    ("ROW", LeftOut::Cursor),
    ("COL", LeftOut::Cursor),
    ("PROW", LeftOut::Cursor),
    ("PCOL", LeftOut::Cursor),
    ("FILE", LeftOut::Machine),
    ("DISKSPACE", LeftOut::Machine),
    ("GETENV", LeftOut::Machine),
    ("OS", LeftOut::Machine),
    ("VERSION", LeftOut::Machine),
    ("ISCOLOR", LeftOut::Machine),
    ("ACCESS", LeftOut::Access),
    ("DBF", LeftOut::Made),
    ("NDX", LeftOut::Made),
    ("FIELD", LeftOut::Made),
    ("LUPDATE", LeftOut::Made),
    ("RECSIZE", LeftOut::Made),
    ("ERROR", LeftOut::On),
    ("MESSAGE", LeftOut::On),
    ("FLOCK", LeftOut::Locks),
    ("LOCK", LeftOut::Locks),
    ("RLOCK", LeftOut::Locks),
];

/// Functions that take no argument here.
const ANSWERS: [(&str, LeftOut); 6] = [
    ("EOF", LeftOut::OtherArea),
    ("BOF", LeftOut::OtherArea),
    ("FOUND", LeftOut::OtherArea),
    ("RECNO", LeftOut::OtherArea),
    ("RECCOUNT", LeftOut::OtherArea),
    ("DELETED", LeftOut::OtherArea),
];

/// What is left out with the first of these words that this one is. The word may be cut to its first letters, four
/// or more.
fn first_named(words: &[(&str, LeftOut)], word: &[u8]) -> Option<LeftOut>
    ensures { result ≡ spec.first_named (map (λ w. (w.0.now, w.1)) words.now) (map to_ascii_uppercase word.now) }
{
    for (whole, found) in words {
        if is_word(word, whole.as_bytes()) {
            return Some(*found);
        }
    }
    None
}

/// What is left out where a line begins with this word, in every form.
#[tactic(auto, unfolding(crate::specs::LeftOut::by_word))]
pub(crate) fn by_word(word: &[u8]) -> Option<LeftOut>
    ensures { result ≡ spec.by_word (map to_ascii_uppercase word.now) }
{
    first_named(&COMMANDS, word)
}

/// What is left out where a line begins with this word.
#[tactic(auto, unfolding(crate::specs::LeftOut::by_first))]
pub(crate) fn by_first(word: &[u8]) -> Option<LeftOut>
    ensures { result ≡ spec.by_first (map to_ascii_uppercase word.now) }
{
    if let Some(found) = by_word(word) {
        return Some(found);
    }
    first_named(&OTHER_FORMS, word)
}

/// Whether SET has a meaning with this word behind it.
#[tactic(auto, unfolding(crate::specs::LeftOut::is_setting))]
fn is_setting(word: &[u8]) -> bool
    ensures { result ≡ spec.is_setting (map to_ascii_uppercase word.now) }
{
    is_word(word, b"ORDER")
        || is_word(word, b"FILTER")
        || is_word(word, b"EXACT")
        || is_word(word, b"DELETED")
        || is_word(word, b"CENTURY")
}

/// What SET asks for with this word behind it.
#[tactic(auto, unfolding(crate::specs::LeftOut::by_setting))]
fn by_setting(word: &[u8]) -> Option<LeftOut>
    ensures { result ≡ spec.by_setting (map to_ascii_uppercase word.now) }
{
    if is_setting(word) {
        return None;
    }
    match first_named(&SETTINGS, word) {
        Some(found) => Some(found),
        None => Some(LeftOut::OtherSet),
    }
}

/// Whether a word is this one, and what it then stands for.
fn if_named(word: &[u8], whole: &[u8], found: LeftOut) -> Option<LeftOut>
    ensures { result ≡ spec.first_named (spec.one whole.now found) (map to_ascii_uppercase word.now) }
{
    if is_word(word, whole) {
        return Some(found);
    }
    None
}

/// What is left out where a line begins with these two words, of commands that are there in other forms.
#[tactic(auto, unfolding(crate::specs::LeftOut::by_form))]
fn by_form(first: &[u8], second: &[u8]) -> Option<LeftOut>
    ensures { result ≡ spec.by_form (map to_ascii_uppercase first.now) (map to_ascii_uppercase second.now) }
{
    if is_word(first, b"RETURN") {
        return if_named(second, b"TO", LeftOut::ToMaster);
    }
    if is_word(first, b"APPEND") {
        return if_named(second, b"FROM", LeftOut::Copies);
    }
    if is_word(first, b"PRIVATE") {
        return if_named(second, b"ALL", LeftOut::PrivateAll);
    }
    if is_word(first, b"READ") {
        return if_named(second, b"SAVE", LeftOut::ReadSave);
    }
    if is_word(first, b"COPY") {
        return if_named(second, b"FILE", LeftOut::Others);
    }
    if is_word(first, b"DELETE") {
        return if_named(second, b"FILE", LeftOut::Others);
    }
    if is_word(first, b"GO") || is_word(first, b"GOTO") {
        return if_named(second, b"RECORD", LeftOut::GoRecord);
    }
    None
}

/// What is left out where a line begins with these two words.
#[tactic(auto, unfolding(crate::specs::LeftOut::by_two))]
pub(crate) fn by_two(first: &[u8], second: &[u8]) -> Option<LeftOut>
    ensures { result ≡ spec.by_two (map to_ascii_uppercase first.now) (map to_ascii_uppercase second.now) }
{
    if is_word(first, b"SET") {
        return by_setting(second);
    }
    if is_word(first, b"CLEAR") {
        return first_named(&CLEARED, second);
    }
    if is_word(first, b"CLOSE") {
        return first_named(&CLOSED, second);
    }
    if is_word(first, b"RELEASE") {
        return first_named(&RELEASED, second);
    }
    by_form(first, second)
}

/// What a clause within a line asks for.
pub(crate) fn of_clause(word: &[u8]) -> Option<LeftOut>
    ensures { result ≡ spec.first_named spec.clauses (map to_ascii_uppercase word.now) }
{
    first_named(&CLAUSES, word)
}

/// What a function asks for, whatever its arguments.
#[tactic(auto, unfolding(crate::specs::LeftOut::by_function))]
pub(crate) fn of_function(word: &[u8]) -> Option<LeftOut>
    ensures { result ≡ spec.by_function (map to_ascii_uppercase word.now) }
{
    first_named(&FUNCTIONS, word)
}

/// What a function that takes nothing here asks for where it has an argument.
pub(crate) fn of_answer(word: &[u8]) -> Option<LeftOut>
    ensures { result ≡ spec.first_named spec.answers (map to_ascii_uppercase word.now) }
{
    first_named(&ANSWERS, word)
}
