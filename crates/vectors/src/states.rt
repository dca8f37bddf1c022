// The state as the vectors have it: a word for each of its numbers.
use crate::words::number;
use rules::limits::AWAITS_NOTHING;
use rules::{Awaited, Negotiated, State, Used};
use std::fmt;

// S words: the state.
pub fn state_of(line: &[u8]) -> State {
    State {
        negotiated: Negotiated {
            phase: number(line, 1),
            peer: number(line, 2),
            selection: number(line, 3),
            edition: number(line, 9),
        },
        used: Used {
            a: number(line, 4),
            b: number(line, 5),
            m: number(line, 6),
        },
        awaited: Awaited {
            whose: number(line, 7),
            length: number(line, 8),
        },
    }
}

// The words of a state.
#[derive(Clone, Copy)]
pub struct Words(pub State);

impl fmt::Display for Words {
    fn fmt<W: fmt::Write>(&self, f: &mut fmt::Formatter<W>) -> fmt::Result {
        let State {
            negotiated,
            used,
            awaited,
        } = self.0;
        write!(
            f,
            "{} {} {}",
            negotiated.phase, negotiated.peer, negotiated.selection
        )?;
        write!(f, " {} {} {}", used.a, used.b, used.m)?;
        write!(
            f,
            " {} {} {}",
            awaited.whose, awaited.length, negotiated.edition
        )
    }
}

// Whether a signature is awaited.
pub fn awaits(state: State) -> bool {
    state.awaited.whose != AWAITS_NOTHING
}
