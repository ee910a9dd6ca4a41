// What a command stored.

ghost use Rattle.std.specs.Prelude.{◌≡◌, option_map};
ghost use Rattle.cc_log.specs.Commands.{stored_at, stored_by};

use cc_library::{LibraryCommand, Name, SharedUnit};

// The unit that a command stored under this name; `None` if it stored no unit there.
fn stored_by<'a>(command: &'a LibraryCommand, name: &Name) -> Option<&'a SharedUnit>
    ensures { option_map (λ unit. unit.now) result ≡ stored_by command.now name.now }
{
    match command {
        LibraryCommand::Add(other, unit) | LibraryCommand::Replace(other, unit) => {
            if other.bytes() == name.bytes() {
                Some(unit)
            } else {
                None
            }
        }
        LibraryCommand::Withdraw(_) => None,
    }
}

/// The unit that the command with this number stored under this name; `None` if it stored no unit there. The first command has
/// the number 1.
pub fn stored_at<'a>(
    commands: &'a [LibraryCommand],
    name: &Name,
    number: usize,
) -> Option<&'a SharedUnit>
    ensures { option_map (λ unit. unit.now) result ≡ stored_at commands.now name.now number }
{
    if number == 0 {
        return None;
    }
    match commands.get(number - 1) {
        Some(command) => stored_by(command, name),
        None => None,
    }
}
