//! A law of what is printed, the contract of a function that does nothing.
ghost use Rattle.sup_program.specs.Plays.{PlayedWorldsKeep};

/// Whatever is played from a new world, its lines are steps of the model, and the main theorem holds of the world after them.
pub fn played_worlds_keep()
    ensures { PlayedWorldsKeep }
{}
