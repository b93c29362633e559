//! The kinds of the values that an instruction takes and gives, as far as they are known.

ghost use Rattle.std.specs.Prelude.{◌≡◌, [], ◌∷◌, reverse, slice_get};
ghost use Rattle.xvalue.specs.declared.kind.Kind.TheVariants.{Number};
ghost use Rattle.xvalue.specs.Kinds.{kind_held};
ghost use Rattle.code_rules.specs.Wants.{fields_at as fields_at_of, field_kind as field_kind_of};
ghost use Rattle.code_rules.specs.Wants.{if_known as known_kind, value_wants, flow_wants, screen_wants, move_wants};
ghost use Rattle.code_rules.specs.Wants.{record_wants, wants as wants_of, kind_asked as kind_of_answer};
ghost use Rattle.code_rules.specs.Wants.{value_gives, screen_gives, record_gives};
ghost use Rattle.code_rules.specs.Wants.{gives as gives_of_instr};

use code_items::{
    Declared, Desk, FlowInstr, Instr, MoveInstr, OpenArea, Question, RecordInstr, ScreenInstr,
    ValueInstr,
};
use dbf_file::Field;
use xvalue::Kind;

/// The fields of the table that an open work area holds; none where there is no such table.
pub fn fields_at(declared: &Declared, area: Option<OpenArea>) -> &[Field]
    ensures { result.now ≡ fields_at_of declared.now area }
{
    match area {
        Some(area) => match declared
            .shape
            .tables
            .as_slice()
            .get(usize::from(area.table))
        {
            Some(table) => table.fields.as_slice(),
            None => &[],
        },
        None => &[],
    }
}

/// The kind of a field of the table that a work area holds, counted from 1; none where the area isn't known to be open
/// or has no such field.
pub fn field_kind(declared: &Declared, desk: &Desk, area: u8, field: u16) -> Option<Kind>
    ensures { result ≡ field_kind_of declared.now desk.now area field }
{
    match fields_at(declared, desk.open_at(area)).get(usize::from(field)) {
        Some(field) => Some(field.letter.kind()),
        None => None,
    }
}

fn one(kind: Kind) -> &'static [Kind]
    ensures { result.now ≡ kind ∷ [] }
{
    match kind {
        Kind::Number => &[Kind::Number],
        Kind::Text => &[Kind::Text],
        Kind::Date => &[Kind::Date],
        Kind::Logical => &[Kind::Logical],
    }
}

fn if_known(kind: Option<Kind>) -> &'static [Kind]
    ensures { reverse result.now ≡ known_kind kind }
{
    match kind {
        Some(kind) => one(kind),
        None => &[],
    }
}

/// A row, a column and a value of this kind.
fn behind_place(kind: Kind) -> &'static [Kind]
    ensures { result.now ≡ Number ∷ Number ∷ kind ∷ [] }
{
    match kind {
        Kind::Number => &[Kind::Number, Kind::Number, Kind::Number],
        Kind::Text => &[Kind::Number, Kind::Number, Kind::Text],
        Kind::Date => &[Kind::Number, Kind::Number, Kind::Date],
        Kind::Logical => &[Kind::Number, Kind::Number, Kind::Logical],
    }
}

fn wanted_by_values(instr: ValueInstr) -> &'static [Kind]
    ensures { reverse result.now ≡ value_wants instr }
{
    match instr {
        ValueInstr::Store(kind, _) | ValueInstr::Discard(kind) => one(kind),
        ValueInstr::Function(fun) => fun.takes(),
        _ => &[],
    }
}

fn wanted_by_flow(instr: FlowInstr) -> &'static [Kind]
    ensures { reverse result.now ≡ flow_wants instr }
{
    match instr {
        FlowInstr::JumpFalse(_) => &[Kind::Logical],
        _ => &[],
    }
}

fn wanted_by_screen(instr: ScreenInstr) -> &'static [Kind]
    ensures { reverse result.now ≡ screen_wants instr }
{
    match instr {
        ScreenInstr::Print(kind) | ScreenInstr::SayOn(kind) | ScreenInstr::Input(kind) => one(kind),
        ScreenInstr::Say(kind) => behind_place(kind),
        _ => &[],
    }
}

fn wanted_by_moves(instr: MoveInstr) -> &'static [Kind]
    ensures { reverse result.now ≡ move_wants instr }
{
    match instr {
        MoveInstr::Skip | MoveInstr::Go => &[Kind::Number],
        MoveInstr::Seek => &[Kind::Text],
        MoveInstr::Top | MoveInstr::Bottom => &[],
    }
}

fn wanted_by_records(declared: &Declared, desk: &Desk, instr: RecordInstr) -> &'static [Kind]
    ensures { reverse result.now ≡ record_wants declared.now desk.now instr }
{
    match instr {
        RecordInstr::Replace(field) => if_known(field_kind(declared, desk, desk.selected, field)),
        _ => &[],
    }
}

/// The kinds of the values that it takes off the stack, that of the top last. Where the kind of what it takes isn't
/// known, there is none.
pub fn wants(declared: &Declared, desk: &Desk, instr: Instr) -> &'static [Kind]
    ensures { reverse result.now ≡ wants_of declared.now desk.now instr }
{
    match instr {
        Instr::Values(instr) => wanted_by_values(instr),
        Instr::Flow(instr) => wanted_by_flow(instr),
        Instr::Screen(instr) => wanted_by_screen(instr),
        Instr::Areas(_) => &[],
        Instr::Moves(instr) => wanted_by_moves(instr),
        Instr::Records(instr) => wanted_by_records(declared, desk, instr),
    }
}

/// The kind of a question's answer.
pub fn kind_asked(question: Question) -> Kind
    ensures { result ≡ kind_of_answer question }
{
    match question {
        Question::Recno | Question::Reccount => Kind::Number,
        Question::Eof | Question::Bof | Question::Found | Question::Deleted => Kind::Logical,
    }
}

fn constant_kind(declared: &Declared, number: u16) -> Option<Kind>
    ensures { result ≡ kind_held (slice_get declared.now.constants number) }
{
    match declared.constants.as_slice().get(usize::from(number)) {
        Some(value) => Some(value.kind()),
        None => None,
    }
}

fn given_by_values(declared: &Declared, instr: ValueInstr) -> Option<Option<Kind>>
    ensures { result ≡ value_gives declared.now instr }
{
    match instr {
        ValueInstr::Constant(number) => Some(constant_kind(declared, number)),
        ValueInstr::Load(kind, _) => Some(Some(kind)),
        ValueInstr::Function(fun) => Some(Some(fun.gives())),
        ValueInstr::Today => Some(Some(Kind::Date)),
        _ => None,
    }
}

fn given_by_screen(instr: ScreenInstr) -> Option<Option<Kind>>
    ensures { result ≡ screen_gives instr }
{
    match instr {
        ScreenInstr::Input(kind) => Some(Some(kind)),
        ScreenInstr::Line => Some(Some(Kind::Text)),
        _ => None,
    }
}

fn given_by_records(declared: &Declared, desk: &Desk, instr: RecordInstr) -> Option<Option<Kind>>
    ensures { result ≡ record_gives declared.now desk.now instr }
{
    match instr {
        RecordInstr::Field { area, field } => Some(field_kind(declared, desk, area, field)),
        RecordInstr::RowField(field) => Some(field_kind(declared, desk, desk.selected, field)),
        RecordInstr::Ask(question) => Some(Some(kind_asked(question))),
        _ => None,
    }
}

/// The kind of the value that it puts on the stack, if it puts one there; none within where that kind isn't known.
pub fn gives(declared: &Declared, desk: &Desk, instr: Instr) -> Option<Option<Kind>>
    ensures { result ≡ gives_of_instr declared.now desk.now instr }
{
    match instr {
        Instr::Values(instr) => given_by_values(declared, instr),
        Instr::Screen(instr) => given_by_screen(instr),
        Instr::Records(instr) => given_by_records(declared, desk, instr),
        _ => None,
    }
}
