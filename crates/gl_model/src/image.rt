//! What stands for a world.

ghost use Rattle.gl_model.specs.World.{World};

/// What is kept of a world, by code that answers the machine's calls. The laws of histories hold for any.
pub trait Image {
    /// The worlds that what is kept stands for.
    ghost stands_for: { Self → World → Type 0 };
}
