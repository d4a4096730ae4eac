// Handing out lines and the values in them.
ghost use Rattle.std.specs.Prelude.{◌≡◌, ◌+◌, Decides, MatchResult, IfOk};
ghost use Rattle.sheet.specs.Lines.{start};
ghost use Rattle.sheet.specs.Reading.{at, Ended, HandsLine, NoLine, HandsValue, NoValue};
ghost use Rattle.sheet.specs.Steps.{LengthChecked};

use super::{Part, Reader};
use crate::fault::TextFault;
use crate::limits::is_too_long;
use values::cut_once;

impl<'a> Reader<'a> {
    // The sheet before its first line, unless it is too long.
    pub(crate) fn new(sheet: &'a [u8]) -> Result<Self, TextFault>
        ensures length { LengthChecked sheet.now result }
        ensures start { IfOk result (λ r. at r ≡ start sheet.now) }
    {
        if is_too_long(sheet) {
            return Err(TextFault::TooLong);
        }
        Ok(Reader {
            rest: sheet,
            line: 0,
        })
    }

    // The due line, without its line feed.
    pub fn next_line(&mut self) -> Result<Part<'a>, TextFault>
        ensures { MatchResult result (λ p. HandsLine p.bytes.now p.line (at self.old) (at self.new)) (λ f. NoLine (at self.old) f) }
    {
        let line = self.line + 1;
        let (bytes, after) = cut_once(self.rest, b'\n').ok_or(TextFault::Malformed(line))?;
        self.rest = after;
        self.line = line;
        Ok(Part { line, bytes })
    }

    // What follows `key` in the due line.
    pub fn value(&mut self, key: &[u8]) -> Result<Part<'a>, TextFault>
        ensures { MatchResult result (λ p. HandsValue key.now p.bytes.now p.line (at self.old) (at self.new)) (λ f. NoValue key.now (at self.old) f) }
    {
        let Part { line, bytes } = self.next_line()?;
        let bytes = bytes.strip_prefix(key).ok_or(TextFault::Malformed(line))?;
        Ok(Part { line, bytes })
    }

    // The number of the line that was handed out last; 0 before the first.
    pub fn line(&self) -> u16
        ensures { result ≡ (at self.now).line }
    {
        self.line
    }

    // Whether no byte is left.
    pub fn is_done(&self) -> bool
        ensures { Decides result (Ended self.now) }
    {
        self.rest.is_empty()
    }

    // The number of the line that is due.
    pub fn due_line(&self) -> u16
        ensures { result ≡ (at self.now).line + 1 }
    {
        self.line + 1
    }
}
