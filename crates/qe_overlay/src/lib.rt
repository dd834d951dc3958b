//! The tables of a connector with changes laid over them.
#![tactic(auto)]

mod changes;
mod laws;
mod layer;
mod overlay;
mod view;

pub use laws::{empty_overlays_stand, narrowed_overlays_fit};
pub use overlay::Overlay;
pub use view::OverlayView;
