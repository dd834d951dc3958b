//! What holds of overlays.
ghost use Rattle.qe_overlay.specs.Fits.{EmptyStands, NarrowedFit};
ghost use Rattle.qe_overlay.specs.Held.{NarrowedStay};

/// An overlay without changes shows the tables that are kept below.
pub fn empty_overlays_stand()
    ensures { EmptyStands }
{}

/// An overlay that is narrowed to tables stays as it is where it holds nothing of others, and fits still.
pub fn narrowed_overlays_fit()
    ensures stay { NarrowedStay }
    ensures fit { NarrowedFit }
{}
