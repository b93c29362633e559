//! Command files compiled to a code file, for the tables and indexes that a declaration file declares.
#![tactic(auto)]

mod areas;
mod compiling;
mod listing;
mod refusal;
mod sources;

pub use areas::areas_where_refused;
pub use compiling::compile_files;
pub use listing::{FileFault, FoundFaults, faults_of};
pub use met_areas::{HeldTable, MetAreas};
pub use refusal::{CompileFilesRefusal, CompileTold, CompileWords, SourceFault};
