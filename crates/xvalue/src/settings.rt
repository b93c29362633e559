// The settings that values are compared and shown by.
#![tactic(auto)]

ghost use Rattle.std.specs.Prelude.{◌≡◌};
ghost use Rattle.xvalue.specs.Setting.{settings_off, with_setting};

/// A setting that is on or off.
#[derive(Clone, Copy, PartialEq, Eq, Debug)]
pub enum Setting {
    /// Whether texts are equal only as a whole.
    Exact,
    /// Whether marked records are hidden.
    Deleted,
    /// Whether dates show their year whole.
    Century,
}

/// Which settings are on.
#[derive(Clone, Copy, PartialEq, Eq, Debug)]
pub struct Settings {
    pub exact: bool,
    pub deleted: bool,
    pub century: bool,
}

impl Settings {
    /// All settings off, as at the start of a run.
    pub fn off() -> Settings
        ensures { result ≡ settings_off }
    {
        Settings {
            exact: false,
            deleted: false,
            century: false,
        }
    }

    /// These settings, but for one, which is on or off as told.
    pub fn with(self, setting: Setting, on: bool) -> Settings
        ensures { result ≡ with_setting setting on self }
    {
        match setting {
            Setting::Exact => Settings { exact: on, ..self },
            Setting::Deleted => Settings {
                deleted: on,
                ..self
            },
            Setting::Century => Settings {
                century: on,
                ..self
            },
        }
    }
}
