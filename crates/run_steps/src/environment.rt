//! What instructions change but for values and places.

ghost use Rattle.std.specs.Prelude.{◌≡◌, true, OnOk, OnErr, IfSome, IsSome};
ghost use Rattle.screen_lines.specs.State.{new_line, printed, said, said_on, cleared};
ghost use Rattle.text_lines.specs.Lines.{is_out, next_line, lines_behind};
ghost use Rattle.xvalue.specs.Setting.{with_setting};
ghost use Rattle.work_area.specs.Areas.{here, selected_use};
ghost use Rattle.run_steps.specs.Effects.{filter_here};
ghost use Rattle.run_steps.specs.World.{with_screen, with_lines, with_settings};

use crate::filtering::Moment;
use calendar::Day;
use key_lists::KeyList;
use screen_lines::Screen;
use std::alloc::AllocError;
use std::marker::Model;
use text_lines::TypedLines;
use work_area::Store;
use xvalue::{Setting, Settings, Text};

/// The tables and work areas, the screen, the operator's lines that are left, the settings, and the day of the run.
#[derive(Drop)]
pub struct Environment<K: KeyList> {
    pub(crate) store: Store<K>,
    pub(crate) screen: Screen,
    pub(crate) lines: TypedLines,
    pub(crate) settings: Settings,
    pub(crate) today: Day,
}

impl<K: KeyList> Model for Environment<K> {
    ghost use Rattle.run_steps.specs.World.{EnvState};

    ghost Value = { EnvState };

    ghost view = { λ e. record {
      store = e.store;
      screen = e.screen;
      lines = e.lines;
      settings = e.settings;
      today = e.today;
    } };
}

impl<K: KeyList> Environment<K> {
    /// These, on this day, with all settings as told.
    pub fn new(
        store: Store<K>,
        screen: Screen,
        lines: TypedLines,
        settings: Settings,
        today: Day,
    ) -> Self
        ensures { result ≡ record {
          store = store;
          screen = screen;
          lines = lines;
          settings = settings;
          today = today;
        } }
    {
        Environment {
            store,
            screen,
            lines,
            settings,
            today,
        }
    }

    /// The tables and work areas.
    pub fn store(&self) -> &Store<K>
        ensures { result.now ≡ self.now.store }
    {
        &self.store
    }

    /// The screen.
    pub fn screen(&self) -> &Screen
        ensures { result.now ≡ self.now.screen }
    {
        &self.screen
    }

    /// Which settings are on.
    pub fn settings(&self) -> Settings
        ensures { result ≡ self.now.settings }
    {
        self.settings
    }

    /// The day of the run.
    pub fn today(&self) -> Day
        ensures { result ≡ self.now.today }
    {
        self.today
    }

    /// What a filter may read besides slots and row.
    pub(crate) fn moment(&self) -> Moment
        ensures { result ≡ record { settings = self.now.settings; today = self.now.today } }
    {
        Moment {
            settings: self.settings,
            today: self.today,
        }
    }

    /// The filter of the selected area, counted from 1; 0 where it has none.
    pub(crate) fn filter_here(&self) -> u16
        ensures { result ≡ filter_here self.now.store }
    {
        match self.store.use_of(self.store.selected()) {
            Some(used) => used.filter,
            None => 0,
        }
    }

    /// The table of the selected area, which is open, counted from 0.
    pub(crate) fn table_here(&self) -> u16
        requires { IsSome (here self.now.store) }
        ensures { IfSome (selected_use self.now.store) (λ u. result ≡ u.table) }
    {
        match self.store.use_of(self.store.selected()) {
            Some(used) => used.table,
            None => unreachable!(),
        }
    }

    /// A setting is on or off from now on.
    pub(crate) fn set(&mut self, setting: Setting, on: bool)
        ensures { self.new ≡ with_settings (with_setting setting on self.old.settings) self.old }
    {
        self.settings = self.settings.with(setting, on);
    }

    /// Begins a new line of the screen. Where memory is refused nothing changes.
    pub(crate) fn new_line(&mut self) -> Result<(), AllocError>
        ensures ok { OnOk result (self.new ≡ with_screen (new_line self.old.screen) self.old) }
        ensures err { OnErr result (self.new ≡ self.old) }
    {
        self.screen.try_new_line()
    }

    /// Shows a text at the cursor. Where memory is refused nothing changes.
    pub(crate) fn print(&mut self, text: &Text) -> Result<(), AllocError>
        ensures ok { OnOk result (self.new ≡ with_screen (printed text.now.items self.old.screen) self.old) }
        ensures err { OnErr result (self.new ≡ self.old) }
    {
        self.screen.try_print(text)
    }

    /// Shows a text from this row and column on.
    pub(crate) fn say(&mut self, row: i128, column: i128, text: &Text)
        ensures { self.new ≡ with_screen (said row column text.now.items self.old.screen) self.old }
    {
        self.screen.say(row, column, text);
    }

    /// Shows a text one column behind the cursor.
    pub(crate) fn say_on(&mut self, text: &Text)
        ensures { self.new ≡ with_screen (said_on text.now.items self.old.screen) self.old }
    {
        self.screen.say_on(text);
    }

    /// Clears the screen. Where memory is refused nothing changes.
    pub(crate) fn clear(&mut self) -> Result<(), AllocError>
        ensures ok { OnOk result (self.new ≡ with_screen (cleared self.old.screen) self.old) }
        ensures err { OnErr result (self.new ≡ self.old) }
    {
        self.screen.clear()
    }

    /// Whether no line of the operator is left.
    pub fn is_out_of_lines(&self) -> bool
        ensures { result ≡ is_out self.now.lines }
    {
        self.lines.is_empty()
    }

    /// From now on these lines are left. None was before.
    pub fn add_lines(&mut self, lines: TypedLines)
        requires { is_out self.old.lines ≡ true }
        ensures { self.new ≡ with_lines lines self.old }
    {
        self.lines = lines;
    }

    /// The operator's next line.
    pub(crate) fn next_line(&mut self) -> Text
        ensures line { result.items ≡ next_line self.old.lines }
        ensures rest { self.new ≡ with_lines (lines_behind self.old.lines) self.old }
    {
        self.lines.next()
    }
}
