/// The greatest reading of a clock: 2^63 - 1. Readings begin at 1.
pub const MAX_READING: u64 = 9_223_372_036_854_775_807;

/// The least number of nodes of a cluster.
pub const MIN_NODES: u16 = 2;

/// The greatest number of nodes of a cluster.
pub const MAX_NODES: u16 = 64;

/// The least capacity of a history, in events.
pub const MIN_CAPACITY: u32 = 1;

/// The greatest capacity of a history, in events: 2^24.
pub const MAX_CAPACITY: u32 = 16_777_216;

/// The greatest length of a key, in bytes. The least is 1.
pub const MAX_KEY_LEN: usize = 256;

/// The greatest length of a value, in bytes. A value may be empty.
pub const MAX_VALUE_LEN: usize = 4_096;

/// The greatest number of records of a script or a trace, and of claims of a trace: 2^20.
pub const MAX_RECORDS: u64 = 1_048_576;

/// The least number of steps that a seeded script has for each node.
pub const MIN_STEPS: u32 = 1;

/// The greatest number of steps that a seeded script has for each node: 2^14.
pub const MAX_STEPS: u32 = 16_384;

/// The greatest drift limit on the command line: 2^63 - 1. The least is 0.
pub const MAX_DRIFT_LIMIT: u64 = 9_223_372_036_854_775_807;

/// The greatest seed of a seeded script on the command line: 2^63 - 1. The least is 0.
pub const MAX_SEED: u64 = 9_223_372_036_854_775_807;
