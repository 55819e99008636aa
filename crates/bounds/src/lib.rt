// The bounds that fields and table share: each number of document 01 that more than one crate needs.
#![tactic(auto)]

pub const FIRST_YEAR: u64 = 2000;

pub const LAST_YEAR: u64 = 2099;

pub const MAX_NUMERO: u64 = 9999999;

pub const MAX_CENTS: u64 = 99999999999;

pub const ABI: usize = 5;

pub const MAX_CODE: usize = 16;

pub const MAX_BODIES: usize = 16;

pub const MAX_SLOTS: usize = 512;

pub const MAX_LENGTH: usize = 65792;
