//! Code that is being written: its constants, lists and filters, names and their slots, blocks with jumps whose places
//! aren't known yet, and what is known where ways through a block meet.
#![tactic(auto)]

mod block;
mod fault;
mod filters;
mod laws;
mod lists;
mod merging;
mod names;
mod numbering;
mod pool;
mod seen;
mod settled;
mod work;

pub use block::{BlockPiece, Draft, DraftBlock, Label, MOST_SLOTS, SourceLine};
pub use fault::{CompileError, CompileFault, CompileFaultKind, CompileRefusal};
pub use filters::{FilterBlock, Filters, has_unmet_needs};
pub use laws::{states_are_known_again, ways_merge};
pub use lists::{ListedIndexes, Lists, indexes_opened};
pub use merging::{is_selection_same, is_state_same, merged};
pub use names::{Names, Variable};
pub use numbering::Numbering;
pub use pool::{Constant, MOST_CONSTANTS, Pool, is_same_constant};
pub use seen::Seen;
pub use settled::{LaidOut, lay, room_of};
pub use work::{Get, Output, Work};
