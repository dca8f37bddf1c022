// The paper's limits and codes; specs/Limits.antt has each with its sentence.
pub const MESSAGE_LIMIT: usize = 4608;

pub const TRANSCRIPT_LENGTH: usize = 36864;

pub const A_LIMIT: u32 = 512;

pub const B_LIMIT: u32 = 28672;

pub const M_LIMIT: u32 = 7680;

pub const A_START: usize = 0;

pub const B_START: usize = 512;

pub const M_START: usize = 29184;

pub const NONCE_LENGTH: usize = 32;

pub const PEER_LEAST: u32 = 42;

pub const PEER_11: u32 = 4608;

pub const FRESH_PHASE: u32 = 0;

pub const VERSION_PHASE: u32 = 1;

pub const CAPABILITIES_PHASE: u32 = 2;

pub const ALGORITHMS_PHASE: u32 = 3;

pub const VERSION_USED: u32 = 14;

pub const CAPABILITIES_USED_11: u32 = 38;

pub const CAPABILITIES_USED_12: u32 = 54;

pub const HEADER_LENGTH: usize = 4;

pub const VERSION_LENGTH: usize = 10;

pub const VERSION_COUNT: u8 = 2;

pub const VERSION_ENTRY_11: usize = 0x1100;

pub const VERSION_ENTRY_12: usize = 0x1200;

pub const CAPABILITIES_LAYOUT_11: usize = 12;

pub const CAPABILITIES_LAYOUT_12: usize = 20;

pub const ALGORITHMS_LENGTH: usize = 36;

pub const ALGORITHMS_LEAST: usize = 32;

pub const ALGORITHMS_MOST: usize = 128;

pub const CERTIFICATE_LAYOUT: usize = 8;

pub const CERTIFICATE_HEAD: usize = 8;

pub const CHALLENGE_LAYOUT: usize = 36;

pub const SIGNED_LAYOUT: usize = 37;

pub const TYPE_LEAST: u8 = 2;

pub const TYPE_MOST: u8 = 5;

pub const PORTION_LIMIT: usize = 1024;

pub const VERSION_10: u8 = 0x10;

pub const VERSION_11: u8 = 0x11;

pub const VERSION_12: u8 = 0x12;

pub const NO_EDITION: u32 = 0;

pub const GET_VERSION: u8 = 0x84;

pub const GET_CAPABILITIES: u8 = 0xE1;

pub const NEGOTIATE_ALGORITHMS: u8 = 0xE3;

pub const GET_DIGESTS: u8 = 0x81;

pub const GET_CERTIFICATE: u8 = 0x82;

pub const CHALLENGE: u8 = 0x83;

pub const GET_MEASUREMENTS: u8 = 0xE0;

pub const VERSION_CODE: u8 = 0x04;

pub const CAPABILITIES_CODE: u8 = 0x61;

pub const ALGORITHMS_CODE: u8 = 0x63;

pub const DIGESTS_CODE: u8 = 0x01;

pub const CERTIFICATE_CODE: u8 = 0x02;

pub const CHALLENGE_CODE: u8 = 0x03;

pub const MEASUREMENTS_CODE: u8 = 0x60;

pub const ERROR_CODE: u8 = 0x7F;

pub const PLAIN_FLAGS: u8 = 0x06;

pub const MEASURING_FLAGS: u8 = 0x16;

pub const ALL_MEASUREMENTS: u8 = 0xFF;

pub const TCB_MEASUREMENTS: u8 = 1;

pub const SHORT_STEP: u8 = 1;

pub const LONG_STEP: u8 = 2;

pub const BUSY_STEP: u8 = 3;

pub const CODE_STEP: u8 = 4;

pub const VERSION_STEP: u8 = 5;

pub const PHASE_STEP: u8 = 6;

pub const FIELDS_STEP: u8 = 7;

pub const SIZE_STEP: u8 = 8;

pub const ROOM_STEP: u8 = 9;

pub const INVALID_REQUEST: u8 = 0x01;

pub const BUSY: u8 = 0x03;

pub const UNEXPECTED_REQUEST: u8 = 0x04;

pub const UNSPECIFIED: u8 = 0x05;

pub const UNSUPPORTED_REQUEST: u8 = 0x07;

pub const RESPONSE_TOO_LARGE: u8 = 0x0D;

pub const REQUEST_TOO_LARGE: u8 = 0x0E;

pub const VERSION_MISMATCH: u8 = 0x41;

pub const SHORT_ANSWER: u32 = 11;

pub const SHORT_TRANSCRIPT: u32 = 12;

pub const WRONG_NONCE: u32 = 13;

pub const WRONG_STATE: u32 = 14;

pub const NOTHING_AWAITED: u32 = 15;

pub const WRONG_SIGNATURE: u32 = 16;

pub const AWAITS_NOTHING: u32 = 0;

pub const AWAITS_CHALLENGE: u32 = 1;

pub const AWAITS_MEASUREMENTS: u32 = 2;
