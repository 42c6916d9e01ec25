// The line of a refusal.
ghost use Rattle.std.specs.Prelude.{◌≡◌, IfOk, string_bytes};
ghost use Rattle.answers.specs.Lines.{layer_name, refusal_line};

use ring::{Fault, Layer};
use std::alloc::{AllocError, Global};

// A layer's name in a refusal.
pub fn layer_name(layer: Layer) -> &'static str
    ensures { result.now ≡ layer_name layer }
{
    layer.name()
}

// `refused NUMBER LAYER PLACE` and a newline.
pub fn refusal_line(heap: Global, fault: Fault) -> Result<String, AllocError>
    ensures { IfOk result (λ t. string_bytes t ≡ refusal_line fault) }
{
    format!(in heap; "refused {fault}\n")
}
