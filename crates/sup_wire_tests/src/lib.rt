//! The tests of `sup_wire`, of images that are looked at (`sup_still`), of the next image's text
//! (`sup_image_text`) and of texts that are cut short (`sup_cut_texts`), through their public calls. A
//! crate with tests is proved twice, once without and once with them: here there is nothing to prove
//! without them.
#![tactic(auto)]

#[cfg(test)]
mod decoding;
#[cfg(test)]
mod encoding;
#[cfg(test)]
mod given;
#[cfg(test)]
mod images;
#[cfg(test)]
mod lent_images;
#[cfg(test)]
mod made;
#[cfg(test)]
mod prefixes;
#[cfg(test)]
mod read_back;
#[cfg(test)]
mod refused;
#[cfg(test)]
mod still_images;
#[cfg(test)]
mod walked_acts;
#[cfg(test)]
mod walks;
