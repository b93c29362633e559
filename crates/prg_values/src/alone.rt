//! What a command of one line alone tells.

ghost use Rattle.std.specs.Prelude.{◌≡◌};
ghost use Rattle.prg_line.specs.Act.{act_of};
ghost use Rattle.prg_values.specs.OneInstr.{may_wait, setting_of as setting_of_toggle};

use prg_line::{Statement, Toggle};
use xvalue::Setting;

/// Whether the command may stand between a GET and its READ, or is that READ.
pub fn may_stand_before_read(statement: &Statement) -> bool
    ensures { result ≡ may_wait (act_of statement.now) }
{
    match statement {
        Statement::Show { .. } => true,
        Statement::ShowOn { .. } => true,
        Statement::Say { .. } => true,
        Statement::Get { .. } => true,
        Statement::SayGet { .. } => true,
        Statement::Read => true,
        _ => false,
    }
}

/// The setting as an instruction names it.
pub fn setting_of(toggle: Toggle) -> Setting
    ensures { result ≡ setting_of_toggle toggle }
{
    match toggle {
        Toggle::Exact => Setting::Exact,
        Toggle::Deleted => Setting::Deleted,
        Toggle::Century => Setting::Century,
    }
}
