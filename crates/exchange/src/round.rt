// What a round leaves: the two ends of a direction, and the paper's number of each of its three calls. A call that was not
// made, because the one before it was refused, has the number 0 and leaves its end as it was.
// They are no Results, since the definition `round_of` equates them with the numbers of `performed`.
use centre::end::Centre;

#[derive(Clone, Copy)]
pub struct Round {
    pub presenter: Centre,
    pub receiver: Centre,
    pub sent: u8,
    pub received: u8,
    pub replied: u8,
}
