//! Sentences, without the point at their end.

ghost use Rattle.std.specs.Prelude.{◌≡◌, true};
ghost use Rattle.hints.specs.Sentences.{is_sentence};

use crate::left_out::LeftOut;
use dbf_file::DbfFault;
use folder_shapes::Note;
use prg_code::CompileFaultKind;
use prg_expr::ParseFaultKind;
use shape_files::LineFault;

/// What a faulty line may be changed to where nothing that is left out was found in it.
pub(crate) fn of_kind(kind: ParseFaultKind) -> &'static str
    ensures { is_sentence result.now ≡ true }
{
    match kind {
        ParseFaultKind::Character => {
            "a byte outside texts begins no word here; put texts in quotes"
        }
        ParseFaultKind::Text => {
            "a text isn't ended in its line; end it with the mark that it began with"
        }
        ParseFaultKind::Number => "a number has at most 19 digits, 15 of them behind the point",
        ParseFaultKind::Word => {
            "no command or clause is written so; a name may be missing, or a word may be left over"
        }
        ParseFaultKind::Expression => {
            "an expression is missing or wrong here; look for an operator, comma or parenthesis too many or too few"
        }
        ParseFaultKind::Block => {
            "end each IF, DO CASE, DO WHILE and SCAN by its own ENDIF, ENDCASE, ENDDO or ENDSCAN, the inner one first"
        }
        ParseFaultKind::TooLong => {
            "a line has at most 1,024 bytes, a text 254 and a name 10; cut it into several"
        }
        ParseFaultKind::TooDeep => {
            "at most 32 blocks or parentheses stand within one another; make a procedure or a variable of the inner \
            part"
        }
        ParseFaultKind::Macro => {
            "macros (&) are left out; write out what the variable would hold, or choose by DO CASE"
        }
    }
}

/// What to do about a command that can't be compiled, in one sentence without its point.
pub fn of_command(kind: CompileFaultKind) -> &'static str
    ensures { is_sentence result.now ≡ true }
{
    match kind {
        CompileFaultKind::Name => {
            "no field here, variable, declared table or index, or procedure has this name; set the variable before, \
            or declare the table"
        }
        CompileFaultKind::Kind => {
            "a value of another kind is wanted; change it by STR(), VAL(), CTOD() or DTOC()"
        }
        CompileFaultKind::Unset => {
            "on some way to this line the variable has no value; set it before, on each way"
        }
        CompileFaultKind::ClosedArea => {
            "on some way to this line the work area is closed; USE a table in it before, on each way"
        }
        CompileFaultKind::NoOrder => {
            "the work area has no such order; open indexes by USE .. INDEX or INDEX ON, and choose one by SET ORDER TO"
        }
        CompileFaultKind::OpenTwice => {
            "the table may be open in another work area already; SELECT that one, or close it there by USE alone"
        }
        CompileFaultKind::Merge => {
            "ways that meet here have selected different work areas; SELECT the same one on each way"
        }
        CompileFaultKind::Filter => {
            "a filter reads its own table's fields, RECNO(), RECCOUNT(), DELETED(), DATE() and variables that stay \
            set; set them again, or SET FILTER TO alone"
        }
        CompileFaultKind::Recursion => {
            "a procedure can't call itself, nor one that is still being run; use DO WHILE"
        }
        CompileFaultKind::Copies => {
            "procedures are called in more than 256 ways; call them with the same areas open and the same variables set"
        }
        CompileFaultKind::Limit => {
            "a program has at most 256 variables, 4,096 constants, 64 filters, 65,535 instructions, 4,096 places of \
            jumps and 20 calls within one another, and a USE 7 indexes; cut it into several"
        }
        CompileFaultKind::Parameters => {
            "WITH must hand over as many values as PARAMETERS names, and PARAMETERS must be the procedure's first \
            command"
        }
        CompileFaultKind::Get => {
            "a READ stands behind the GETs, and only @, ? and ?? between; put other commands before the first GET \
            or behind the READ"
        }
        CompileFaultKind::Index => {
            "the index is declared for another table or with another key; INDEX ON must spell the declared key"
        }
    }
}

/// What to do about a command that names a table and an index, if one of its names isn't declared.
pub(crate) fn of_undeclared_index() -> &'static str
    ensures { is_sentence result.now ≡ true }
{
    "the table, a field of the key or the index isn't declared; a line INDEX name ON table KEY key of the declaration \
    file declares an index, and dbrun declare proposes such lines"
}

/// What to do about a faulty line of a declaration file, in one sentence without its point.
pub fn of_declaration(fault: LineFault) -> &'static str
    ensures { is_sentence result.now ≡ true }
{
    match fault {
        LineFault::Word => "write TABLE name, INDEX name ON table KEY key, or a comment behind *",
        LineFault::Name => {
            "a name has up to eight capitals, digits and underscores, a letter first, isn't A to J or M alone, and \
            stands once; declare a table before its indexes"
        }
        LineFault::Key => {
            "a key is one to eight text fields of the table joined by +, each plain or in UPPER(), at most 100 \
            bytes long"
        }
        LineFault::Limit => "at most 32 tables and 64 indexes are declared",
        LineFault::Table => "the table's file can't be taken",
    }
}

/// What to do about a table's file of which this is noted, in one sentence without its point.
pub fn of_table_note(note: Note) -> &'static str
    ensures { is_sentence result.now ≡ true }
{
    match note {
        Note::Gone => "there is no file of this name with .DBF behind it, all in capitals",
        Note::SmallLetters => "the file's name has small letters; rename it to capitals",
        Note::Version(131) =>
            "the table has a memo file; copy it without its memo fields by the tool that made it",
        Note::Version(_) =>
            "the table is of another version than dBASE III; copy it by the tool that made it",
        Note::NoTable(DbfFault::FieldShape) => {
            "a field can't be: texts have 1 to 254 bytes, numbers 1 to 19 digits, dates 8 bytes, logical values 1"
        }
        Note::NoTable(_) => "the file is damaged, or is no table",
        Note::TooLong => "the file is longer than 64 MiB",
        _ => "the file can't be read",
    }
}

impl LeftOut {
    /// What to write instead, in one sentence without its point.
    pub fn instead(self) -> &'static str
        ensures { is_sentence result.now ≡ true }
    {
        match self {
            LeftOut::Locate => {
                "LOCATE and CONTINUE are left out; use SCAN FOR .. EXIT .. ENDSCAN, and after it test .NOT. EOF() \
                instead of FOUND(), which is false there"
            }
            LeftOut::Find => "FIND is left out; use SEEK with the text in quotes",
            LeftOut::Sums => {
                "COUNT, SUM and AVERAGE are left out; set a variable to 0, and add to it in SCAN .. ENDSCAN"
            }
            LeftOut::Totals => {
                "TOTAL and UPDATE are left out; add up in SCAN .. ENDSCAN, and APPEND BLANK or REPLACE in the other \
                area"
            }
            LeftOut::Listings => "LIST and DISPLAY are left out; use ? in SCAN .. ENDSCAN",
            LeftOut::Structures => {
                "CREATE and MODIFY are left out; tables are made before, and stand in the declaration file"
            }
            LeftOut::Copies => {
                "copying, sorting and joining are left out; APPEND BLANK and REPLACE in the other area in SCAN .. \
                ENDSCAN, or INDEX ON a key"
            }
            LeftOut::Reports => "REPORT and LABEL are left out; print by ? in SCAN .. ENDSCAN",
            LeftOut::Saved => "SAVE and RESTORE are left out; keep the values in a table",
            LeftOut::ByHand => {
                "editing by hand is left out; use APPEND BLANK, and @ .. GET and READ into variables, and REPLACE"
            }
            LeftOut::Input => "INPUT is left out; use ACCEPT and VAL(), or @ .. GET and READ",
            LeftOut::Texts => "TEXT is left out; print each line by ?",
            LeftOut::Printer => {
                "printers and other outputs are left out; all rows go to standard output; the screen has 25 rows of 80 \
                columns, CLEAR ends a page, and @ outside the screen prints nothing, without a message"
            }
            LeftOut::Others => "other programs and files are left out; take the line away",
            LeftOut::Public => {
                "PUBLIC is left out; set the variable before DO, and what is called sees it"
            }
            LeftOut::Arrays => "arrays are left out; use a variable for each value, or a table",
            LeftOut::On => {
                "ON and what follows errors are left out, since a run has no errors; take the line away"
            }
            LeftOut::ReleaseAll => "RELEASE ALL is left out; name the variables",
            LeftOut::PrivateAll => "PRIVATE ALL is left out; name the variables",
            LeftOut::ToMaster =>
                "RETURN TO MASTER is left out; use RETURN in each procedure, or QUIT",
            LeftOut::Relation => {
                "SET RELATION is left out; SELECT the other area, SEEK the key, and SELECT back"
            }
            LeftOut::OpenIndexes => {
                "SET INDEX and CLOSE INDEX are left out; USE the table again with the indexes wanted"
            }
            LeftOut::Closing =>
                "CLOSE ALL and CLOSE DATABASES close all tables, and USE alone closes one; nothing else is open",
            LeftOut::Formats => "format files are left out; write their @ lines before READ",
            LeftOut::Unique => "an index lists all records; SEEK a key before APPEND BLANK",
            LeftOut::Carry => {
                "SET CARRY is left out; set variables before APPEND BLANK, and REPLACE the fields with them"
            }
            LeftOut::Paths => "all files stand in the current folder; take the line away",
            LeftOut::ReadSave =>
                "READ ends its GETs; write the @ .. GET lines again before the next READ",
            LeftOut::Locks => {
                "locks are left out, since a run is alone with its tables; take the word or the line away"
            }
            LeftOut::Prompt => "HELP and ASSIST are for a person at a prompt; take the line away",
            LeftOut::Decimals =>
                "decimals can't be set; use ROUND() or STR() with as many as wanted",
            LeftOut::DateForm => "dates are MM/DD/YY; SET CENTURY ON shows MM/DD/YYYY",
            LeftOut::OtherSet => "this SET is left out; take the line away",
            LeftOut::Alias =>
                "an alias of one's own is left out; use the table's name, or the area's letter",
            LeftOut::ClearParts => {
                "CLEAR clears the screen alone; use CLOSE ALL for tables, and RELEASE for variables"
            }
            LeftOut::AtForms => {
                "behind @ row,column stand SAY, GET or both, and nothing else; to blank a place, SAY SPACE()"
            }
            LeftOut::SelectZero => {
                "SELECT takes a letter A to J, a number from 1 to 10, or the name of an open table"
            }
            LeftOut::OtherAlias => {
                "no alias stands before a name that is set; SELECT the area, and write the field's or variable's \
                name alone"
            }
            LeftOut::GoRecord => "GO takes the number alone; leave RECORD out",
            LeftOut::Scopes => {
                "ALL, NEXT, RECORD, WHILE and FOR stand in SCAN FOR alone; put the command between SCAN and ENDSCAN"
            }
            LeftOut::Pictures =>
                "PICTURE and RANGE are left out; use STR(), or test the answer in DO WHILE",
            LeftOut::Type =>
                "TYPE() is left out; the kind of each variable is known when it is compiled",
            LeftOut::Transform => "TRANSFORM() is left out; use STR() and texts joined by +",
            LeftOut::Keys =>
                "single keys and function keys are left out; use WAIT or ACCEPT, which take a line",
            LeftOut::Cursor => {
                "where the cursor stands can't be asked; keep the row and the column in variables"
            }
            LeftOut::Machine =>
                "a run knows nothing of the machine and of other files; take the test away",
            LeftOut::Access => {
                "ACCESS() is left out, since nobody logs in here; take the test away"
            }
            LeftOut::Made => {
                "how a table is made can't be asked; write its name, fields and indexes out"
            }
            LeftOut::Time => "TIME() is left out; a run knows the day alone, by DATE()",
            LeftOut::Powers => "powers, SQRT(), EXP() and LOG() are left out; multiply in DO WHILE",
            LeftOut::OtherArea =>
                "the answer is that of the selected area; SELECT the other one before",
        }
    }
}
