//! The words that begin a command.

ghost use Rattle.std.specs.Prelude.{◌≡◌, ℕ, List, codes, false, map, true};
ghost use Rattle.std.specs.Char.{to_ascii_uppercase};
ghost use Rattle.prg_expr.specs.Functions.{is_cut};
ghost use Rattle.prg_expr.specs.Lexicon.{IsOneOf};
ghost use Rattle.prg_expr.specs.Word.{words};
ghost use Rattle.prg_line.specs.Verbs as spec;
ghost use Rattle.prg_line.specs.Beginning.{found_of};

use crate::role::Role;
use prg_expr::{BinaryOperator, Token, is_word};

/// Which command a line begins.
#[derive(Clone, Copy)]
pub enum Verb {
    /// A line without words.
    Nothing,
    /// A comment, or a `SET` of the machine's looks, which mean nothing here.
    Ignored,
    /// No command begins so.
    Unknown,
    /// A macro begins the line.
    Macro,
    Show,
    ShowOn,
    At,
    Read,
    Accept,
    Wait,
    Clear,
    Assign,
    Store,
    Release,
    Private,
    Parameters,
    If,
    Else,
    EndIf,
    DoCase,
    Case,
    Otherwise,
    EndCase,
    DoWhile,
    EndDo,
    Scan,
    EndScan,
    Loop,
    Exit,
    Procedure,
    Do,
    Return,
    Quit,
    Cancel,
    Use,
    Select,
    Close,
    Set,
    Go,
    Skip,
    Seek,
    Append,
    Replace,
    Delete,
    Recall,
    Pack,
    Zap,
    Reindex,
    Index,
}

/// The commands of the screen.
fn screen_command(word: &[u8]) -> Option<Verb>
    ensures { result ≡ spec.verb_of_table spec.of_screen (map to_ascii_uppercase word.now) }
{
    if is_word(word, b"READ") {
        return Some(Verb::Read);
    }
    if is_word(word, b"ACCEPT") {
        return Some(Verb::Accept);
    }
    if is_word(word, b"WAIT") {
        return Some(Verb::Wait);
    }
    if is_word(word, b"CLEAR") {
        return Some(Verb::Clear);
    }
    None
}

/// The commands of variables.
fn variable_command(word: &[u8]) -> Option<Verb>
    ensures { result ≡ spec.verb_of_table spec.of_variables (map to_ascii_uppercase word.now) }
{
    if is_word(word, b"STORE") {
        return Some(Verb::Store);
    }
    if is_word(word, b"RELEASE") {
        return Some(Verb::Release);
    }
    if is_word(word, b"PRIVATE") {
        return Some(Verb::Private);
    }
    if is_word(word, b"PARAMETERS") {
        return Some(Verb::Parameters);
    }
    None
}

/// The lines of `IF` and of `DO CASE`, but for `DO CASE` itself.
fn branch_command(word: &[u8]) -> Option<Verb>
    ensures { result ≡ spec.verb_of_table spec.of_branches (map to_ascii_uppercase word.now) }
{
    if is_word(word, b"IF") {
        return Some(Verb::If);
    }
    if is_word(word, b"ELSE") {
        return Some(Verb::Else);
    }
    if is_word(word, b"ENDIF") {
        return Some(Verb::EndIf);
    }
    if is_word(word, b"CASE") {
        return Some(Verb::Case);
    }
    if is_word(word, b"OTHERWISE") {
        return Some(Verb::Otherwise);
    }
    if is_word(word, b"ENDCASE") {
        return Some(Verb::EndCase);
    }
    None
}

/// The lines of loops, but for `DO WHILE`.
fn loop_command(word: &[u8]) -> Option<Verb>
    ensures { result ≡ spec.verb_of_table spec.of_loops (map to_ascii_uppercase word.now) }
{
    if is_word(word, b"ENDDO") {
        return Some(Verb::EndDo);
    }
    if is_word(word, b"SCAN") {
        return Some(Verb::Scan);
    }
    if is_word(word, b"ENDSCAN") {
        return Some(Verb::EndScan);
    }
    if is_word(word, b"LOOP") {
        return Some(Verb::Loop);
    }
    if is_word(word, b"EXIT") {
        return Some(Verb::Exit);
    }
    None
}

/// The commands that lead elsewhere; of `DO` this is told by the next word.
fn call_command(word: &[u8]) -> Option<Verb>
    ensures { result ≡ spec.verb_of_table spec.of_calls (map to_ascii_uppercase word.now) }
{
    if is_word(word, b"PROCEDURE") {
        return Some(Verb::Procedure);
    }
    if is_word(word, b"DO") {
        return Some(Verb::Do);
    }
    if is_word(word, b"RETURN") {
        return Some(Verb::Return);
    }
    if is_word(word, b"QUIT") {
        return Some(Verb::Quit);
    }
    if is_word(word, b"CANCEL") {
        return Some(Verb::Cancel);
    }
    None
}

/// The commands of work areas and settings.
fn area_command(word: &[u8]) -> Option<Verb>
    ensures { result ≡ spec.verb_of_table spec.of_areas (map to_ascii_uppercase word.now) }
{
    if is_word(word, b"USE") {
        return Some(Verb::Use);
    }
    if is_word(word, b"SELECT") {
        return Some(Verb::Select);
    }
    if is_word(word, b"CLOSE") {
        return Some(Verb::Close);
    }
    if is_word(word, b"SET") {
        return Some(Verb::Set);
    }
    None
}

/// The commands that move to a record.
fn move_command(word: &[u8]) -> Option<Verb>
    ensures { result ≡ spec.verb_of_table spec.of_moves (map to_ascii_uppercase word.now) }
{
    if is_word(word, b"GO") {
        return Some(Verb::Go);
    }
    if is_word(word, b"GOTO") {
        return Some(Verb::Go);
    }
    if is_word(word, b"SKIP") {
        return Some(Verb::Skip);
    }
    if is_word(word, b"SEEK") {
        return Some(Verb::Seek);
    }
    if is_word(word, b"APPEND") {
        return Some(Verb::Append);
    }
    None
}

/// The commands that change tables and indexes.
fn change_command(word: &[u8]) -> Option<Verb>
    ensures { result ≡ spec.verb_of_table spec.of_changes (map to_ascii_uppercase word.now) }
{
    if is_word(word, b"REPLACE") {
        return Some(Verb::Replace);
    }
    if is_word(word, b"DELETE") {
        return Some(Verb::Delete);
    }
    if is_word(word, b"RECALL") {
        return Some(Verb::Recall);
    }
    if is_word(word, b"PACK") {
        return Some(Verb::Pack);
    }
    if is_word(word, b"ZAP") {
        return Some(Verb::Zap);
    }
    if is_word(word, b"REINDEX") {
        return Some(Verb::Reindex);
    }
    if is_word(word, b"INDEX") {
        return Some(Verb::Index);
    }
    None
}

/// The command that this word begins.
#[tactic(auto, unfolding(crate::specs::Verbs::verb_of_word))]
fn command_of(word: &[u8]) -> Verb
    ensures { result ≡ spec.verb_of_word (map to_ascii_uppercase word.now) }
{
    if let Some(verb) = screen_command(word) {
        return verb;
    }
    if let Some(verb) = variable_command(word) {
        return verb;
    }
    if let Some(verb) = branch_command(word) {
        return verb;
    }
    if let Some(verb) = loop_command(word) {
        return verb;
    }
    if let Some(verb) = call_command(word) {
        return verb;
    }
    if let Some(verb) = area_command(word) {
        return verb;
    }
    if let Some(verb) = move_command(word) {
        return verb;
    }
    match change_command(word) {
        Some(verb) => verb,
        None => Verb::Unknown,
    }
}

/// Each command's word begins it, whole or cut, so that no word begins two; and none begins a comment.
pub fn one_command()
    ensures begins { (word : List ℕ) (x : spec.VerbWord) → IsOneOf x spec.all_commands → is_cut word x.0 ≡ true
        → spec.verb_of_word word ≡ x.1 }
    ensures no_note { (word : List ℕ) (x : spec.VerbWord) → IsOneOf x spec.all_commands → is_cut word x.0 ≡ true
        → is_cut word (codes "NOTE") ≡ false }
{}

/// Whether this word behind `SET` is one of the machine's looks.
fn is_look(word: &[u8]) -> bool
    ensures { result ≡ spec.among spec.looks (map to_ascii_uppercase word.now) }
{
    is_word(word, b"TALK")
        || is_word(word, b"BELL")
        || is_word(word, b"SAFETY")
        || is_word(word, b"STATUS")
        || is_word(word, b"ECHO")
        || is_word(word, b"CONFIRM")
        || is_word(word, b"COLOR")
        || is_word(word, b"HEADING")
        || is_word(word, b"SCOREBOARD")
}

/// Whether this word behind `SET` is one of the machine's habits.
fn is_habit(word: &[u8]) -> bool
    ensures { result ≡ spec.among spec.habits (map to_ascii_uppercase word.now) }
{
    is_word(word, b"ESCAPE")
        || is_word(word, b"INTENSITY")
        || is_word(word, b"DELIMITERS")
        || is_word(word, b"HELP")
        || is_word(word, b"HISTORY")
        || is_word(word, b"MARGIN")
        || is_word(word, b"TYPEAHEAD")
        || is_word(word, b"PROCEDURE")
}

/// Whether this word behind `SET` is one without meaning.
#[tactic(auto, unfolding(crate::specs::Verbs::is_ignored))]
fn is_ignored(word: &[u8]) -> bool
    ensures { result ≡ spec.is_ignored (map to_ascii_uppercase word.now) }
{
    is_look(word) || is_habit(word)
}

/// What `DO` begins before this word, the first of `rest`, behind which the others stand.
#[tactic(auto, unfolding(crate::specs::Verbs::do_before))]
fn do_before<'a>(second: &[u8], rest: &'a [Token<'a>], others: &'a [Token<'a>]) -> Found<'a>
    ensures { found_of result ≡ spec.do_before (map to_ascii_uppercase second.now) (words rest.now) (words others.now) }
{
    if is_word(second, b"CASE") {
        Found {
            verb: Verb::DoCase,
            rest: others,
        }
    } else if is_word(second, b"WHILE") {
        Found {
            verb: Verb::DoWhile,
            rest: others,
        }
    } else {
        Found {
            verb: Verb::Do,
            rest,
        }
    }
}

/// What a command is before this word, the first of `rest`, behind which the others stand.
#[tactic(auto, unfolding(crate::specs::Verbs::before_name))]
fn before_name<'a>(
    verb: Verb,
    second: &[u8],
    rest: &'a [Token<'a>],
    others: &'a [Token<'a>],
) -> Found<'a>
    ensures { found_of result
        ≡ spec.before_name verb (map to_ascii_uppercase second.now) (words rest.now) (words others.now) }
{
    match verb {
        Verb::Do => do_before(second, rest, others),
        Verb::Set => {
            if is_ignored(second) {
                Found {
                    verb: Verb::Ignored,
                    rest,
                }
            } else {
                Found { verb, rest }
            }
        }
        _ => Found { verb, rest },
    }
}

/// Which command a line of these words begins, the first of which is a name.
#[tactic(auto, unfolding(crate::specs::Verbs::behind_first))]
fn behind_first<'a>(all: &'a [Token<'a>], first: &[u8], rest: &'a [Token<'a>]) -> Found<'a>
    ensures { found_of result ≡ spec.behind_first (words all.now) (map to_ascii_uppercase first.now) (words rest.now) }
{
    match rest {
        [Token::Operator(BinaryOperator::Equal), ..] => Found {
            verb: Verb::Assign,
            rest: all,
        },
        [Token::Name(second), others @ ..] => {
            before_name(command_of(first), *second, rest, others)
        }
        _ => Found {
            verb: command_of(first),
            rest,
        },
    }
}

/// Which command a line of these words begins, the first of which is a name; behind `NOTE` all is a comment.
#[tactic(auto, unfolding(crate::specs::Verbs::at_first))]
fn at_first<'a>(all: &'a [Token<'a>], first: &[u8], rest: &'a [Token<'a>]) -> Found<'a>
    ensures { found_of result ≡ spec.at_first (words all.now) (map to_ascii_uppercase first.now) (words rest.now) }
{
    if is_word(first, b"NOTE") {
        Found {
            verb: Verb::Ignored,
            rest,
        }
    } else {
        behind_first(all, first, rest)
    }
}

/// A command, and the words behind those that say which one it is.
#[derive(Clone, Copy)]
pub struct Found<'a> {
    /// The command.
    pub verb: Verb,
    /// The words that are left.
    pub rest: &'a [Token<'a>],
}

/// Which command the words of a line begin, and the words behind those that say so.
#[tactic(auto, unfolding(crate::specs::Verbs::verb_of))]
pub fn verb_of<'a>(line: &'a [Token<'a>]) -> Found<'a>
    ensures { found_of result ≡ spec.verb_of (words line.now) }
{
    match line {
        [] => Found {
            verb: Verb::Nothing,
            rest: line,
        },
        [Token::Name(first), rest @ ..] => at_first(line, *first, rest),
        [Token::Operator(BinaryOperator::Times), rest @ ..] => Found {
            verb: Verb::Ignored,
            rest,
        },
        [Token::Show, rest @ ..] => Found {
            verb: Verb::Show,
            rest,
        },
        [Token::ShowOn, rest @ ..] => Found {
            verb: Verb::ShowOn,
            rest,
        },
        [Token::At, rest @ ..] => Found {
            verb: Verb::At,
            rest,
        },
        [Token::Macro, ..] => Found {
            verb: Verb::Macro,
            rest: line,
        },
        _ => Found {
            verb: Verb::Unknown,
            rest: line,
        },
    }
}

impl Verb {
    /// Whether the rest of the line isn't looked at.
    pub fn ignores_rest(self) -> bool
        ensures { result ≡ spec.ignores_rest self }
    {
        matches!(
            self,
            Verb::Ignored | Verb::EndIf | Verb::EndCase | Verb::EndDo | Verb::EndScan
        )
    }

    /// Whether the command has expressions among its words.
    pub fn has_expressions(self) -> bool
        ensures { result ≡ spec.has_expressions self }
    {
        matches!(
            self,
            Verb::Show
                | Verb::ShowOn
                | Verb::At
                | Verb::Accept
                | Verb::Wait
                | Verb::Assign
                | Verb::Store
                | Verb::If
                | Verb::Case
                | Verb::DoWhile
                | Verb::Scan
                | Verb::Do
                | Verb::Set
                | Verb::Go
                | Verb::Skip
                | Verb::Seek
                | Verb::Replace
                | Verb::Index
        )
    }

    /// What the line is to the blocks around it.
    pub fn role(self) -> Role
        ensures { result ≡ spec.role_of self }
    {
        match self {
            Verb::If => Role::If,
            Verb::Else => Role::Else,
            Verb::EndIf => Role::EndIf,
            Verb::DoCase => Role::DoCase,
            Verb::Case => Role::Case,
            Verb::Otherwise => Role::Otherwise,
            Verb::EndCase => Role::EndCase,
            Verb::DoWhile => Role::DoWhile,
            Verb::EndDo => Role::EndDo,
            Verb::Scan => Role::Scan,
            Verb::EndScan => Role::EndScan,
            Verb::Loop | Verb::Exit => Role::Leap,
            Verb::Procedure => Role::Procedure,
            Verb::Nothing | Verb::Ignored => Role::Nothing,
            _ => Role::Plain,
        }
    }
}
