// How layers and refusals print.
ghost use Rattle.std.specs.Prelude.{◌≡◌, Some};
ghost use Rattle.ring.specs.Texts.{layer_name, fault_text};

use crate::fault::{Fault, Layer};
use std::fmt;

impl Layer {
    // A layer's name in a refusal.
    pub fn name(self) -> &'static str
        ensures { result.now ≡ layer_name self }
    {
        match self {
            Layer::Ring => "ring",
            Layer::Slip => "slip",
            Layer::Key => "key",
            Layer::Form => "form",
            Layer::Session => "session",
            Layer::Check => "check",
        }
    }
}

impl fmt::Display for Layer {
    ghost output = { λ layer. Some (layer_name layer) };

    fn fmt<W: fmt::Write>(&self, f: &mut fmt::Formatter<W>) -> fmt::Result {
        f.write_str(self.name())
    }
}

// `NUMBER LAYER PLACE`
impl fmt::Display for Fault {
    ghost output = { λ fault. Some (fault_text fault) };

    fn fmt<W: fmt::Write>(&self, f: &mut fmt::Formatter<W>) -> fmt::Result {
        let (number, layer, place) = (self.number, self.layer, self.place);
        write!(f, "{number} {layer} {place}")
    }
}
