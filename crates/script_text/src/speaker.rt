//! The speakers of a script's lines.

ghost use Rattle.std.specs.Prelude.{◌≡◌};
ghost use Rattle.script_text.specs.Reading.{may_say};

use texts::Lines;

/// The speaker of a script's lines.
#[derive(Clone, Copy, Debug, PartialEq, Eq)]
pub enum Speaker {
    /// Anyone: all events.
    Anyone,
    /// A client starts puts and gets, and takes nodes down or up.
    Client,
}

impl Speaker {
    /// Whether the speaker may say the next line, by its first word.
    pub fn may_say(self, lines: &Lines) -> bool
        ensures { result ≡ may_say self lines.now.lines }
    {
        match self {
            Speaker::Anyone => true,
            Speaker::Client => {
                lines.begins(b"put")
                    || lines.begins(b"get")
                    || lines.begins(b"down")
                    || lines.begins(b"up")
            }
        }
    }
}
