// Where an image's parts stand:
//     places   slot numbers and file offsets, as two types
//     shape    the numbers of a header that place an image's bytes and that no call changes
#![tactic(auto)]

pub mod places;
pub mod shape;
