// What a call on a centre gives: the paper's number, 0 if it is not refused; how many bytes stand at the start of the line
// buffer; and the centre that it leaves.
// The number is no Result, since the definition `turn_of` equates it with the number of `performed`, which has codes and refusals alike.
use crate::end::Centre;

#[derive(Clone, Copy)]
pub struct Turn {
    pub number: u8,
    pub written: usize,
    pub centre: Centre,
}
