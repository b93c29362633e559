// Lists of screen commands, from a new screen to the bytes at the end.
#![tactic(auto)]

ghost use Rattle.std.specs.Prelude.{◌≡◌, IfOk, OnOk, OnErr};
ghost use Rattle.screen_lines.specs.Commands.{obeyed, bytes_sent};

use crate::screen::Screen;
use std::alloc::{AllocError, Global};
use xvalue::Text;

/// What a run may ask of the screen.
#[derive(Drop)]
pub enum ScreenCommand {
    NewLine,
    Print(Text),
    Say { row: i128, column: i128, text: Text },
    SayOn(Text),
    Clear,
}

/// Does what a command asks. Where memory is refused the screen is as it was.
pub fn obey(screen: &mut Screen, command: &ScreenCommand) -> Result<(), AllocError>
    ensures ok { OnOk result (screen.new ≡ obeyed command.now screen.old) }
    ensures err { OnErr result (screen.new ≡ screen.old) }
{
    match command {
        ScreenCommand::NewLine => screen.try_new_line(),
        ScreenCommand::Print(text) => screen.try_print(text),
        ScreenCommand::Say { row, column, text } => {
            screen.say(*row, *column, text);
            Ok(())
        }
        ScreenCommand::SayOn(text) => {
            screen.say_on(text);
            Ok(())
        }
        ScreenCommand::Clear => screen.clear(),
    }
}

/// The bytes that a new screen has sent at the end of these commands.
pub fn run(alloc: Global, commands: &[ScreenCommand]) -> Result<Vec<u8>, AllocError>
    ensures { IfOk result (λ bytes. bytes.items ≡ bytes_sent commands.now) }
{
    let mut screen = Screen::new(alloc)?;
    for command in commands {
        obey(&mut screen, command)?;
    }
    screen.finish(alloc)
}
