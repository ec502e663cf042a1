// What a line of the dialogue asks for.
use crate::input::TooLong;

#[derive(Clone, Copy, PartialEq, Eq)]
pub enum Command {
    // A line with no field asks for nothing.
    Nothing,
    Reset,
    Memory,
    Quit,
    // These take an operand.
    Load,
    Tape,
    Force,
    Base,
    Symbols,
    Undefined,
    End,
    Unknown,
}

impl Command {
    // A command is one letter, in either case.
    pub fn of(line: Result<&[u8], TooLong>) -> Self {
        match line {
            Ok([]) => Command::Nothing,
            Ok([letter]) => Command::of_letter(letter.to_ascii_uppercase()),
            _ => Command::Unknown,
        }
    }

    fn of_letter(letter: u8) -> Self {
        match letter {
            b'R' => Command::Reset,
            b'M' => Command::Memory,
            b'X' => Command::Quit,
            b'L' => Command::Load,
            b'I' => Command::Tape,
            b'F' => Command::Force,
            b'B' => Command::Base,
            b'S' => Command::Symbols,
            b'U' => Command::Undefined,
            b'E' => Command::End,
            _ => Command::Unknown,
        }
    }

    pub fn has_operand(self) -> bool {
        matches!(
            self,
            Command::Load
                | Command::Tape
                | Command::Force
                | Command::Base
                | Command::Symbols
                | Command::Undefined
                | Command::End
        )
    }
}
