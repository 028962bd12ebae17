// What the programs that test the calls share: deciding and building in marked areas, comparing buffers, and the words of a text.
#![tactic(auto)]

pub mod asked;
pub mod buffers;
pub mod text;
