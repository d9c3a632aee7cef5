//! What a program's arguments ask for.

ghost use Rattle.std.specs.Prelude.{map, string_bytes};
ghost use Rattle.rpki_commands.specs.Arguments.{Asks};

/// What the arguments ask for.
#[derive(Clone, Copy, Debug, PartialEq, Eq)]
pub enum Command<'a> {
    /// `check`: a bundle on standard input, its lines on standard output.
    Check,
    /// `bundle FOLDER`: the bundle that the folder gives, on standard output.
    Bundle(&'a str),
}

/// What is written for arguments that ask for nothing.
pub const USAGE: &str = "usage: rpki_check check | rpki_check bundle FOLDER\n";

/// The command that the arguments ask for, the first of which is the program's name.
pub fn command_of(arguments: &[String]) -> Option<Command<'_>>
    ensures { Asks (map string_bytes arguments.now) result }
{
    match arguments {
        [_, name] if name.as_str() == "check" => Some(Command::Check),
        [_, name, folder] if name.as_str() == "bundle" => Some(Command::Bundle(folder.as_str())),
        _ => None,
    }
}
