// Layers and faults as they are printed.
ghost use Rattle.std.specs.Prelude.{◌≡◌, Some};
ghost use Rattle.std.specs.Fmt.{styled_text};
ghost use Rattle.sheet.specs.Words.{layer_word, fault_shown};

use crate::fault::{Fault, Layer, WiringFault};
use std::fmt;

impl Layer {
    pub fn word(self) -> &'static str
        ensures { result.now ≡ layer_word self }
    {
        match self {
            Layer::Text => "text",
            Layer::Row => "row",
            Layer::Wiring => "wiring",
        }
    }
}

impl fmt::Display for Layer {
    ghost output = { λ l. Some (layer_word l) };

    ghost styled_output = { λ l s. Some (styled_text s (layer_word l)) };

    fn fmt<W: fmt::Write>(&self, f: &mut fmt::Formatter<W>) -> fmt::Result {
        f.pad(self.word())
    }
}

// As `refused 14 line 9 wiring: ..`.
impl fmt::Display for WiringFault {
    ghost output = { λ f. Some (fault_shown f) };

    fn fmt<W: fmt::Write>(&self, f: &mut fmt::Formatter<W>) -> fmt::Result {
        let number = self.number();
        let line = self.line();
        let layer = self.layer();
        let reason = self.reason();
        write!(f, "refused {number} line {line} {layer}: {reason}")
    }
}
