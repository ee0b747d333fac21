//! What the lines say that tell how a run ended. It takes no memory.
ghost use Rattle.std.specs.Prelude.{◌≡◌, ◌≤◌, ◌++◌, length, codes, decimal};
ghost use Rattle.program.specs.Outcomes.{line_with};

use arrayvec::ArrayString;
use cube_sets::Clash;
use itoa::Buffer;

/// What a line says has at most so many bytes.
pub const LONGEST_MESSAGE: usize = 120;

/// A program's name has at most so many bytes.
pub const LONGEST_NAME: usize = 16;

const LONGEST_LINE: usize = 139;

/// What a line says.
pub type Message = ArrayString<LONGEST_MESSAGE>;

/// It says this.
pub fn fixed_message(what: &str) -> Message
    requires { length what.now ≤ LONGEST_MESSAGE }
    ensures { result.bytes ≡ what.now }
{
    let mut text = ArrayString::new();
    text.push_str(what);
    text
}

/// A text is refused: its first bad line, which is one of this kind, and the cause.
pub fn refusal_message(kind: &str, line: u32, why: &str) -> Message
    requires kind { length kind.now ≤ 16 }
    requires why { length why.now ≤ 32 }
    ensures { result.bytes ≡ kind.now ++ codes " " ++ decimal line ++ codes ": " ++ why.now }
{
    let mut digits = Buffer::new();
    let mut text = ArrayString::new();
    text.push_str(kind);
    text.push_str(" ");
    text.push_str(digits.format(line));
    text.push_str(": ");
    text.push_str(why);
    text
}

/// Rows contradict each other.
pub(crate) fn contradiction_message(clash: Clash) -> Message
    ensures { result.bytes ≡ codes "output " ++ decimal clash.output
        ++ codes ": on line " ++ decimal clash.on_line
        ++ codes ", off line " ++ decimal clash.off_line }
{
    let mut digits = Buffer::new();
    let mut text = ArrayString::new();
    text.push_str("output ");
    text.push_str(digits.format(clash.output));
    text.push_str(": on line ");
    text.push_str(digits.format(clash.on_line));
    text.push_str(", off line ");
    text.push_str(digits.format(clash.off_line));
    text
}

/// A number passes its limit.
pub fn count_message(comparison: &str, limit: u64, what: &str) -> Message
    requires comparison { length comparison.now ≤ 16 }
    requires what { length what.now ≤ 20 }
    ensures { result.bytes ≡ comparison.now ++ codes " " ++ decimal limit ++ codes " "
        ++ what.now }
{
    let mut digits = Buffer::new();
    let mut text = ArrayString::new();
    text.push_str(comparison);
    text.push_str(" ");
    text.push_str(digits.format(limit));
    text.push_str(" ");
    text.push_str(what);
    text
}

/// The line of the program of this name that says this, or none where nothing is said.
pub(crate) fn line(name: &str, message: &str) -> ArrayString<LONGEST_LINE>
    requires name { length name.now ≤ LONGEST_NAME }
    requires message { length message.now ≤ LONGEST_MESSAGE }
    ensures { result.bytes ≡ line_with name.now message.now }
{
    let mut text = ArrayString::new();
    if message.is_empty() {
        return text;
    }
    text.push_str(name);
    text.push_str(": ");
    text.push_str(message);
    text.push_str("\n");
    text
}
