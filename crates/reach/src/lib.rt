// Emission's table of the current span, on the scratch words: from which states the span closes at a seed with few enough steps.
#![tactic(auto)]

mod cone;
mod layers;
mod span;

pub use layers::{Layers, load_layer, no_layers};
