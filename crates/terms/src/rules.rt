// The numbers of the term rules.

// Nonces and session keys are numbered up to this.
pub const LAST_NUMBER: u16 = 95;
