//! What a run of the program leaves of the images that it was given.

/// What a run leaves of its images. One that was taken is nobody else's as long as this lives.
#[derive(Drop)]
pub enum Leaves<I: Drop, D: Drop, L: Drop> {
    /// The images, of which none was taken.
    Images(I),
    /// Nothing, since the image can't be taken.
    Nothing,
    /// The image, which can't be read.
    Image(D),
    /// The station of the node that ran over it.
    Station(L),
}
