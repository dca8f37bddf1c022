// The numbered flows: what each sends first, and the steps that end with a CHALLENGE.
use crate::request::Request;
use crate::request::Request::{Algorithms, Capabilities, Certificate, Challenge, Digests, Version};

// What 6.6 does first: it learns the slots.
pub const NEGOTIATION: [Request; 4] = [Version, Capabilities, Algorithms, Digests];

// What 6.1 to 6.4 and 6.7 to 6.10 do first: they have read the slot's chain too.
pub const SETUP: [Request; 5] = [Version, Capabilities, Algorithms, Digests, Certificate];

// 6.1 and 6.7, (A1, B1, C1): after a negotiation, digests and chain are hashed. The flows 6.11 to 6.14 do this first.
const STEPS_7: [Request; 6] = [
    Version,
    Capabilities,
    Algorithms,
    Digests,
    Certificate,
    Challenge,
];

// 6.2 and 6.8, (A1, B2, C1): after a negotiation, neither digests nor chain; what came before GET_VERSION is not hashed.
const STEPS_8: [Request; 4] = [Version, Capabilities, Algorithms, Challenge];

// 6.3 and 6.9, (A1, B3, C1): after a negotiation, the digests alone.
const STEPS_9: [Request; 5] = [Version, Capabilities, Algorithms, Digests, Challenge];

// 6.10, (A1, B4, C1): after a negotiation, the chain alone.
const STEPS_10: [Request; 5] = [Version, Capabilities, Algorithms, Certificate, Challenge];

// 6.11, (A2, B1, C1): digests and chain again, after a finished CHALLENGE_AUTH; A is hashed as it was.
const STEPS_11: [Request; 3] = [Digests, Certificate, Challenge];

// 6.12, (A2, B2, C1): CHALLENGE straight after a finished CHALLENGE_AUTH; B has only this one.
const STEPS_12: [Request; 1] = [Challenge];

// 6.13, (A2, B3, C1): the digests alone, after a finished CHALLENGE_AUTH.
const STEPS_13: [Request; 2] = [Digests, Challenge];

// 6.14, (A2, B4, C1): the chain alone, after a finished CHALLENGE_AUTH.
const STEPS_14: [Request; 2] = [Certificate, Challenge];

// A flow with a valid CHALLENGE: what it sends once, and the steps that it repeats.
#[derive(Clone, Copy)]
pub struct Flow {
    pub name: &'static str,
    pub setup: &'static [Request],
    pub steps: &'static [Request],
}

// Those that are for 1.1.
pub const FLOWS_11: [Flow; 3] = [
    Flow {
        name: "6.1",
        setup: &SETUP,
        steps: &STEPS_7,
    },
    Flow {
        name: "6.2",
        setup: &SETUP,
        steps: &STEPS_8,
    },
    Flow {
        name: "6.3",
        setup: &SETUP,
        steps: &STEPS_9,
    },
];

// Those that are for 1.2.
pub const FLOWS_12: [Flow; 8] = [
    Flow {
        name: "6.7",
        setup: &SETUP,
        steps: &STEPS_7,
    },
    Flow {
        name: "6.8",
        setup: &SETUP,
        steps: &STEPS_8,
    },
    Flow {
        name: "6.9",
        setup: &SETUP,
        steps: &STEPS_9,
    },
    Flow {
        name: "6.10",
        setup: &SETUP,
        steps: &STEPS_10,
    },
    Flow {
        name: "6.11",
        setup: &STEPS_7,
        steps: &STEPS_11,
    },
    Flow {
        name: "6.12",
        setup: &STEPS_7,
        steps: &STEPS_12,
    },
    Flow {
        name: "6.13",
        setup: &STEPS_7,
        steps: &STEPS_13,
    },
    Flow {
        name: "6.14",
        setup: &STEPS_7,
        steps: &STEPS_14,
    },
];
