//! What names mean, the kinds of expressions, and their code.
#![tactic(auto)]

mod alone;
mod arguments;
mod calls;
mod compiling;
mod kinds;
mod operators;
mod pieces;
mod sameness;
mod scope;
mod standing;

pub use alone::{may_stand_before_read, setting_of};
pub use compiling::compile_expr;
pub use kinds::kind_of;
pub use operators::{OperatorMeaning, operated};
pub use scope::{
    FieldPlace, Reading, Scope, area_of_alias, field_of, number_in_byte, read_name, read_qualified,
    selected_field, table_named, variable_slot,
};
pub use standing::{Finished, Given, behind, behind_constant, given_at};
