//! Code files: the codec between codes and their bytes, and the listing of a code.
//!
//! What a code is stands in `code_items`, whose types are passed on from here, as is what `code_rules` says of states
//! and of the flow of codes; the bytes of each item stand in `code_parts`.
#![tactic(auto)]

mod constants;
mod decoding;
mod encoding;
mod fault;
mod header;
mod instrs;
mod judges;
mod listing;
mod sections;
mod shapes;
mod states;
mod writing;

pub use code_items::{
    AreaInstr, AreaState, Code, Declared, Desk, Filter, FlowInstr, IndexList, IndexShape, Instr,
    Items, KeyPart, KeyParts, KindSlots, KindStack, Map, MoveInstr, Name, Need, OpenArea, Proc,
    Question, RecordInstr, ScreenInstr, Setting, Shape, State, TableShape, ValueInstr, Version,
};
pub use code_rules::{Signature, flow, kinds, laws, signature};
pub use decoding::{decode, faults_stay, files_end_where_they_end, one_file_each};
pub use encoding::encode;
pub use fault::CodeFault;
pub use instrs::operation_name;
pub use legal_code::LegalCode;
pub use listing::list;
pub use writing::{Writes, put_all, put_two};
