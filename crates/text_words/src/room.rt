// How much room a number may take in a text: the same numbers as the clauses have.

pub const NUMBER_ROOM: usize = 20;

pub const SIGNED_ROOM: usize = 21;
