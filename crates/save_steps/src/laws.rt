//! What follows of the steps. The functions do nothing: their contracts are the laws.

ghost use Rattle.std.specs.Prelude.{ℕ, List};
ghost use Rattle.save_steps.specs.Folders.{NamesAreApart, Renewal, FolderStands};
ghost use Rattle.save_steps.specs.Devices.{Disk};
ghost use Rattle.save_steps.specs.Points.{IsAllOrNothing, IsReady};
ghost use Rattle.save_steps.specs.PowerCuts.{IsAtRest, SurvivesPowerCuts};

/// A save that is stopped at any moment is all or nothing. The commands behind it finish it, and each of these may be
/// stopped too. The first one that isn't stopped ends with all files old or with all new, and with no paper, draft or
/// new file left. All are new exactly where the note had taken the plan's place. No other file is ever touched. That is
/// so for whatever sums tell files apart.
pub fn a_save_is_all_or_nothing()
    ensures { (sum : List ℕ → List ℕ) (changes : List Renewal) (start : FolderStands) → NamesAreApart changes
        → IsReady changes start → IsAllOrNothing sum changes start }
{}

/// A save that is stopped or meets power cuts, at any moments, is all or nothing, also on a device that brings changes
/// of names in any order. The commands after it finish it, and each of these may be stopped or meet power cuts too. The
/// first one that completes ends with all files old or with all new, and with no paper, draft or new file left, on the
/// device too: so the next save may begin. All are new once the note is on the device, and once a command has completed
/// that found a note. Each command takes the steps for what it then sees.
pub fn a_save_survives_power_cuts()
    ensures { (sum : List ℕ → List ℕ) (changes : List Renewal) (d : Disk) → NamesAreApart changes
        → IsReady changes d.seen → IsAtRest d → SurvivesPowerCuts sum changes d }
{}
