//! Codes: what stands in a code, and which codes have a file.
//!
//! A code declares tables, indexes, lists of indexes, constants and filters (`Declared`), and has procedures, maps and
//! instructions. `Code::is_legal` tests what each code file keeps; the definition is `is_code` of `specs/Legal.antt`.
//! What instructions take, give and leave is defined a crate higher.
//!
//! A new instruction is a case of its group in `instr.rt` and a line in `specs/Instrs.antt`.
#![tactic(auto)]

pub mod code;
mod constants;
pub mod declared;
mod desk;
pub mod instr;
mod kind_slots;
mod kind_stack;
mod laid;
pub mod laws;
mod state;

pub use code::{Code, Map, Proc};
pub use declared::{Declared, Filter, Need, Version};
pub use desk::{AreaState, Desk, OpenArea, is_same_area};
pub use instr::{
    AreaInstr, FlowInstr, Instr, MoveInstr, Question, RecordInstr, ScreenInstr, ValueInstr,
};
pub use kind_slots::KindSlots;
pub use kind_stack::{KindStack, kinds_clash};
pub use laid::may_be_unsure;
pub use shape::{IndexList, IndexShape, Items, KeyPart, KeyParts, Name, Shape, TableShape};
pub use state::State;
pub use xvalue::Setting;
