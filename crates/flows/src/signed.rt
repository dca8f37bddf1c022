// What the chip is to sign.
use crate::show::Sum;
use rules::State;
use std::fmt;

// Room for a prefix, more than the longest has.
const PREFIX: usize = 128;

// The prefix for a state: it ends where a buffer of zeros and one of ones differ, once it is written to both.
#[derive(Clone, Copy)]
struct Prefix(State);

impl fmt::Display for Prefix {
    fn fmt<W: fmt::Write>(&self, f: &mut fmt::Formatter<W>) -> fmt::Result {
        let mut zeros = [0u8; PREFIX];
        let mut ones = [1u8; PREFIX];
        signing::write_prefix(self.0, &mut zeros);
        signing::write_prefix(self.0, &mut ones);
        let length = zeros
            .iter()
            .zip(ones.iter())
            .take_while(|(a, b)| a == b)
            .count();
        if length == 0 {
            return write!(f, "no prefix");
        }
        write!(f, "prefix of {}", Sum(wire::part_of(&zeros, 0, length)))
    }
}

// The prefix, and the two parts of the transcript whose hash follows it.
#[derive(Clone, Copy)]
pub struct Signed<'a> {
    pub state: State,
    pub transcript: &'a [u8],
}

impl fmt::Display for Signed<'_> {
    fn fmt<W: fmt::Write>(&self, f: &mut fmt::Formatter<W>) -> fmt::Result {
        let Signed { state, transcript } = *self;
        write!(
            f,
            "[{}; hashed {} and {}]",
            Prefix(state),
            Sum(signing::first_part(state, transcript)),
            Sum(signing::second_part(state, transcript))
        )
    }
}
