// Runs of calls: a line has an image, the transcript buffer, the state, a request, a finishing, what the last of these two is to give, or
// what is then to be signed.
use crate::signed::signed;
use crate::states::{Words, awaits, state_of};
use crate::text::{Hex, Text, changed, crc32};
use crate::words::{decode, length, number, without_end, word};
use crate::{FILL, IMAGE, MESSAGE, TRANSCRIPT};
use rules::{HostError, Outcome, State};
use std::iter;

const NONCE: usize = 64;

// A run has at most so many images, the first of its lines.
const IMAGES: usize = 64;

// How the bytes go up of an answer that a state is handed in as awaiting, and those of the transcript buffer.
const ANSWER_STEP: u8 = 5;

const TRANSCRIPT_STEP: u8 = 13;

// Bytes that go up by a step, modulo 256.
fn fill(out: &mut [u8], first: u8, step: u8) {
    let rising = iter::successors(Some(first), |byte| Some(byte.wrapping_add(step)));
    for (place, byte) in out.iter_mut().zip(rising) {
        *place = byte;
    }
}

// A run, as far as its lines have come.
#[derive(Drop)]
pub struct Run<'a> {
    // the lines from the run's first on
    lines: &'a [u8],
    // the transcript buffer, and how long it is lent
    transcript: [u8; TRANSCRIPT],
    room: usize,
    // the answer that awaits its signature
    awaited: [u8; MESSAGE],
    state: State,
    // the length of what the last call gave, and whether what is to be signed is due as well: the line that has it may not come
    given: usize,
    due: bool,
}

impl<'a> Run<'a> {
    pub fn new(lines: &'a [u8]) -> Run<'a> {
        Run {
            lines,
            transcript: [0; TRANSCRIPT],
            room: 0,
            awaited: [0; MESSAGE],
            state: state::fresh(),
            given: 0,
            due: false,
        }
    }

    // I name hex: an image. The one with the name g0 starts a new run.
    fn take_image(&mut self, line: &[u8], lines: &'a [u8]) {
        if word(line, 1) == b"g0".as_slice() {
            self.lines = lines;
        }
    }

    // The image that a call's line names, in hex: it stands on one of the run's first lines.
    fn image(&self, line: &[u8]) -> &'a [u8] {
        let name = word(line, 1);
        let mut lines = self.lines.split_inclusive(|&b| b == b'\n');
        let named = lines
            .by_ref()
            .take(IMAGES)
            .find(|line| word(without_end(line), 1) == name);
        // where none of them has the name: the line behind them, whatever its own
        let line = named.or_else(|| lines.next()).unwrap_or(&[]);
        word(without_end(line), 2)
    }

    // T size fill: the transcript buffer.
    fn take_transcript(&mut self, line: &[u8]) {
        let first = (number(line, 2) % 256) as u8;
        fill(&mut self.transcript, first, TRANSCRIPT_STEP);
        self.room = length(line, 1);
    }

    fn lent(&self) -> &[u8] {
        wire::part_of(&self.transcript, 0, self.room)
    }

    // S words: the state, at any place of a run.
    fn take_state(&mut self, line: &[u8]) {
        fill(&mut self.awaited, 0, ANSWER_STEP);
        self.state = state_of(line);
    }

    // What a call gave, as the vectors have it.
    fn take_outcome(&mut self, text: &mut Text, outcome: Outcome, before: &[u8], answer: &[u8]) {
        let n = outcome.reply.unwrap_or(0);
        let number = outcome.reply.err().map_or(0, HostError::number);
        let given = format_args!(
            "{number} {} {} {:08x}{}",
            Hex(wire::part_of(answer, 0, n)),
            Words(outcome.state),
            crc32(self.lent()),
            changed(before, answer, n)
        );
        self.given = text.put(0, given).len();
        self.state = outcome.state;
        self.due = outcome.reply.is_ok() && awaits(outcome.state);
    }

    // R image answer_len transcript_len nonce request: a request.
    fn take_request(&mut self, rt: &impl Print, text: &mut Text, line: &[u8]) {
        let mut image = [0u8; IMAGE];
        let image = decode(rt, self.image(line), &mut image);
        let mut nonce = [0u8; NONCE];
        let nonce = decode(rt, word(line, 4), &mut nonce);
        let mut request = [0u8; MESSAGE];
        let request = decode(rt, word(line, 5), &mut request);
        let before = [FILL; MESSAGE];
        let mut answer = before;
        let lent = length(line, 2).min(MESSAGE);
        let room = length(line, 3).min(TRANSCRIPT);
        let outcome = responder::respond(
            image,
            self.state,
            &mut self.transcript[..room],
            &mut answer[..lent],
            request,
            nonce,
        );
        if !awaits(self.state) && awaits(outcome.state) {
            self.awaited = answer;
        }
        self.take_outcome(text, outcome, &before, &answer);
    }

    // F image answer_len transcript_len chip signature: a finishing.
    fn take_finishing(&mut self, rt: &impl Print, text: &mut Text, line: &[u8]) {
        let mut image = [0u8; IMAGE];
        let image = decode(rt, self.image(line), &mut image);
        let mut signature = [0u8; MESSAGE];
        let signature = decode(rt, word(line, 5), &mut signature);
        let mut answer = [FILL; MESSAGE];
        let awaited = self.state.awaited.length as usize;
        wire::copy_into(&mut answer, 0, wire::part_of(&self.awaited, 0, awaited));
        let before = answer;
        let lent = length(line, 2).min(MESSAGE);
        let outcome = signing::finish(
            image,
            self.state,
            wire::part_of(&self.transcript, 0, length(line, 3)),
            &mut answer[..lent],
            number(line, 4) == 1,
            signature,
        );
        self.take_outcome(text, outcome, &before, &answer);
    }

    // = number answer words crc: what the last call is to give. Where the line H that is due is not below, a word more comes out.
    fn given<'t>(&self, text: &'t mut Text, lines: &[u8]) -> &'t [u8] {
        let below = lines.split_inclusive(|&b| b == b'\n').nth(1);
        let missing = self.due && !below.is_some_and(|line| line.starts_with(b"H"));
        text.put(self.given, if missing { " H" } else { "" })
    }

    // H prefix_len hash_len crc: what is to be signed after a call; where it is not due, nothing comes out. It stands in the room of what
    // the call gave, whose line = is above: one that comes below finds it there.
    fn signed<'t>(&mut self, rt: &impl Print, text: &'t mut Text) -> &'t [u8] {
        if !self.due {
            return &[];
        }
        self.due = false;
        signed(rt, text, self.state, self.lent())
    }

    // Takes a line, the first of those that are left; answers what comes out of one that has what is to come. Any that has no other letter
    // is what the last call is to give.
    pub fn take_line<'t>(
        &mut self,
        rt: &impl Print,
        text: &'t mut Text,
        line: &[u8],
        lines: &'a [u8],
    ) -> Option<&'t [u8]> {
        match line.first() {
            Some(b'I') => self.take_image(line, lines),
            Some(b'T') => self.take_transcript(line),
            Some(b'S') => self.take_state(line),
            Some(b'R') => self.take_request(rt, text, line),
            Some(b'F') => self.take_finishing(rt, text, line),
            Some(b'H') => return Some(self.signed(rt, text)),
            _ => return Some(self.given(text, lines)),
        }
        None
    }
}
