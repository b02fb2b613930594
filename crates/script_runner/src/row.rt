ghost use Rattle.std.specs.Prelude.{◌<◌, length, IfSome, IfNone, IsTrue};
ghost use Rattle.script_runner.specs.Replies.{HasCode, IsSame, Meets};

use crate::failure::{Place, Way};
use ipc_model::Call;
use words::take_word;

/// The expected reply.
#[derive(Drop)]
pub enum Wanted {
    /// This frame, which begins with its length.
    Frame(Vec<u8>),
    /// A frame with this return code and any results.
    Code(u32),
}

/// A frame to be sent, and its expected reply.
#[derive(Drop)]
pub struct Ask {
    /// The frame, which begins with its length.
    pub frame: Vec<u8>,
    pub wanted: Wanted,
    /// Number of times that it is sent, each with that reply.
    pub times: u32,
    /// The call that the frame encodes, if the line has one.
    pub call: Option<Call>,
}

/// The step of a script's line.
#[derive(Drop)]
pub enum ScriptStep {
    /// Sends a frame.
    Ask(Ask),
    /// Ends the connection and begins another one.
    Connect,
    /// Checks the length of segment 0 in bytes.
    Length(u64),
}

/// A line of a script with a step.
#[derive(Drop)]
pub struct ScriptLine {
    /// The line's number, from 1.
    pub line: u32,
    pub step: ScriptStep,
}

impl ScriptLine {
    /// Returns the line and the way in which the script is run.
    pub fn place(&self, way: Way) -> Place {
        Place {
            line: self.line,
            way,
        }
    }
}

/// A script as it is run.
#[derive(Drop)]
pub struct Script {
    /// True if it is only run straight: without crashes.
    pub is_straight: bool,
    pub rows: Vec<ScriptLine>,
}

/// Returns the return code in a reply's frame.
pub fn code_of(frame: &[u8]) -> Option<u32>
    ensures found { IfSome result (HasCode frame.now) }
    ensures none { IfNone result (length frame.now < 12) }
{
    let (_, content) = take_word(frame)?;
    let (_, after_number) = take_word(content)?;
    let (code, _) = take_word(after_number)?;
    Some(code)
}

/// Returns true if a reply's frame is the expected one.
pub fn is_wanted(reply: &[u8], wanted: &Wanted) -> bool
    ensures wanted { IsTrue result → Meets wanted.now reply.now }
    ensures same { IsSame wanted.now reply.now → IsTrue result }
{
    match wanted {
        Wanted::Frame(frame) => frame.as_slice() == reply,
        Wanted::Code(code) => code_of(reply) == Some(*code),
    }
}
