// The paper's limits; specs/Limits.antt has each with its sentence.
pub const IMAGE_LIMIT: usize = 61440;

pub const IMAGE_VERSION: u8 = 1;

pub const HEAD_LENGTH: usize = 3;

pub const IDENTITY_KIND: u8 = 1;

pub const CHAIN_KIND: u8 = 2;

pub const MEASUREMENT_KIND: u8 = 3;

pub const SUMMARY_KIND: u8 = 4;

pub const IDENTITY_LENGTH: usize = 3;

pub const IDENTITY_END: usize = 1 + HEAD_LENGTH + IDENTITY_LENGTH;

pub const EXPONENT_LIMIT: u8 = 31;

pub const HASH_LIMIT: u8 = 5;

pub const SIGNATURE_LIMIT: u8 = 8;

pub const SLOT_LIMIT: u8 = 7;

pub const SLOT_LENGTH: usize = 1;

pub const SLOT_COUNT: usize = 8;

pub const CHAINS_LIMIT: u8 = 8;

pub const CHAIN_LEAST: usize = 5;

pub const CHAIN_LIMIT: usize = 16384;

pub const INDEX_LIMIT: u8 = 239;

pub const LABEL_LENGTH: usize = 2;

pub const TYPE_LIMIT: u8 = 3;

pub const MEASUREMENTS_LIMIT: u8 = 32;

// The numbers that the host sees.
pub const WRONG_SIZE: u8 = 1;

pub const WRONG_VERSION: u8 = 2;

pub const BROKEN_RECORD: u8 = 3;

pub const WRONG_KIND: u8 = 4;

pub const TOO_MANY: u8 = 5;

pub const WRONG_LENGTH: u8 = 6;

pub const WRONG_FIELD: u8 = 7;

pub const WRONG_OWN_LENGTH: u8 = 8;
