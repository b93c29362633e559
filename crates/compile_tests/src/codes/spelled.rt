// Instructions as examples spell them: a name and its operands.

use code_items::{
    AreaInstr, FlowInstr, Instr, MoveInstr, Question, RecordInstr, ScreenInstr, Setting, ValueInstr,
};
use xvalue::{Fun, Kind};

fn kind_of(word: &str) -> Option<Kind> {
    if word == "N" {
        return Some(Kind::Number);
    }
    if word == "T" {
        return Some(Kind::Text);
    }
    if word == "D" {
        return Some(Kind::Date);
    }
    Some(Kind::Logical)
}

fn byte_of(word: &str) -> u8 {
    word.parse().unwrap_or(0)
}

fn two_of(word: &str) -> u16 {
    word.parse().unwrap_or(0)
}

fn four_of(word: &str) -> u32 {
    word.parse().unwrap_or(0)
}

fn value_instr(name: &str, a: &str, b: &str) -> Option<ValueInstr> {
    let kind = kind_of(a)?;
    let made = [
        ("CONST", ValueInstr::Constant(two_of(a))),
        ("LOAD", ValueInstr::Load(kind, two_of(b))),
        ("STORE", ValueInstr::Store(kind, two_of(b))),
        ("UNSET", ValueInstr::Unset(two_of(a))),
        ("DROP", ValueInstr::Discard(kind)),
        ("TODAY", ValueInstr::Today),
        ("CENTURY", ValueInstr::Set(Setting::Century, true)),
    ];
    if name == "FUN" {
        return Some(ValueInstr::Function(Fun::numbered(byte_of(a))?));
    }
    for (word, instr) in &made {
        if *word == name {
            return Some(*instr);
        }
    }
    None
}

fn flow_instr(name: &str, a: &str) -> Option<FlowInstr> {
    let made = [
        ("JUMP", FlowInstr::Jump(four_of(a))),
        ("JUMPF", FlowInstr::JumpFalse(four_of(a))),
        ("CALL", FlowInstr::Call(two_of(a))),
        ("RETURN", FlowInstr::Return),
        ("END", FlowInstr::End),
    ];
    for (word, instr) in &made {
        if *word == name {
            return Some(*instr);
        }
    }
    None
}

fn area_instr(name: &str, a: &str, b: &str) -> Option<AreaInstr> {
    let made = [
        (
            "OPEN",
            AreaInstr::Open {
                table: two_of(a),
                list: four_of(b),
            },
        ),
        ("CLOSE", AreaInstr::Close),
        ("CLOSEALL", AreaInstr::CloseAll),
        ("SELECT", AreaInstr::Select(byte_of(a))),
        ("ORDER", AreaInstr::Order(two_of(a))),
        ("FILTER", AreaInstr::Filter(two_of(a))),
    ];
    for (word, instr) in &made {
        if *word == name {
            return Some(*instr);
        }
    }
    None
}

fn move_instr(name: &str) -> Option<MoveInstr> {
    let made = [
        ("TOP", MoveInstr::Top),
        ("BOTTOM", MoveInstr::Bottom),
        ("SKIP", MoveInstr::Skip),
        ("GO", MoveInstr::Go),
        ("SEEK", MoveInstr::Seek),
    ];
    for (word, instr) in &made {
        if *word == name {
            return Some(*instr);
        }
    }
    None
}

fn record_instr(name: &str, a: &str, b: &str) -> Option<RecordInstr> {
    let made = [
        (
            "FIELD",
            RecordInstr::Field {
                area: byte_of(a),
                field: two_of(b),
            },
        ),
        ("ROWFIELD", RecordInstr::RowField(two_of(a))),
        ("RECNO", RecordInstr::Ask(Question::Recno)),
        ("EOF", RecordInstr::Ask(Question::Eof)),
        ("APPEND", RecordInstr::Append),
        ("REPLACE", RecordInstr::Replace(two_of(a))),
        ("PACK", RecordInstr::Pack),
        ("REINDEX", RecordInstr::Reindex),
        ("INDEX", RecordInstr::Index(two_of(a))),
    ];
    for (word, instr) in &made {
        if *word == name {
            return Some(*instr);
        }
    }
    None
}

fn screen_instr(name: &str, a: &str) -> Option<ScreenInstr> {
    let kind = kind_of(a)?;
    let made = [
        ("NEWLINE", ScreenInstr::NewLine),
        ("PRINT", ScreenInstr::Print(kind)),
        ("SAY", ScreenInstr::Say(kind)),
        ("INPUT", ScreenInstr::Input(kind)),
        ("LINE", ScreenInstr::Line),
    ];
    for (word, instr) in &made {
        if *word == name {
            return Some(*instr);
        }
    }
    None
}

/// The instruction that a text spells.
pub(crate) fn instr_of(text: &str) -> Option<Instr> {
    let (name, operands) = text.split_once(' ').unwrap_or((text, ""));
    let (a, b) = operands.split_once(' ').unwrap_or((operands, "0"));
    if let Some(instr) = value_instr(name, a, b) {
        return Some(Instr::Values(instr));
    }
    if let Some(instr) = flow_instr(name, a) {
        return Some(Instr::Flow(instr));
    }
    if let Some(instr) = area_instr(name, a, b) {
        return Some(Instr::Areas(instr));
    }
    if let Some(instr) = move_instr(name) {
        return Some(Instr::Moves(instr));
    }
    if let Some(instr) = record_instr(name, a, b) {
        return Some(Instr::Records(instr));
    }
    Some(Instr::Screen(screen_instr(name, a)?))
}
