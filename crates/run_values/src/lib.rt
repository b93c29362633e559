//! What a run keeps of values: slots and a stack, with tags that tell kinds and without.
//!
//! `Values` says what instructions ask of them; `Tagged` is the checking machine's body, `Untagged` that of the machine
//! without tags. Both stand for the same lists of values with their kinds.
#![tactic(auto)]

pub mod calling;
mod cells;
mod kind_piles;
mod operands;
mod pile;
mod stacks;
mod tagged;
mod text_pile;
mod untagged;
mod values;

pub use cells::{Cells, TEMPORARIES};
pub use kind_piles::KindPiles;
pub use operands::Operand;
pub use pile::{Pile, STACK_LIMIT};
pub use stacks::Stacks;
pub use tagged::Tagged;
pub use untagged::{SaidPlace, Untagged};
pub use values::{Registered, Values};
