// The image that a host keeps of a chip: its cells, the bytes of its latches, spare bytes. Here
// is what is true of every such image and every call on one (specs/Image.antt); the layout of a
// chip and its functions are with the chip. Answers as one word each for C are in `words`.

#![tactic(auto)]

pub mod words;
