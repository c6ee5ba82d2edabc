// How much room the lines of a text may take: the same numbers as the clauses have.
use text_words::room::{NUMBER_ROOM, SIGNED_ROOM};

// Words, numbers and a line feed.
pub const VAN_ROOM: usize = 4 + NUMBER_ROOM + 1;

pub const REFUSED_ROOM: usize = 8 + NUMBER_ROOM + 1;

pub const CREW_ROOM: usize = 5
    + NUMBER_ROOM
    + 9
    + NUMBER_ROOM
    + 7
    + NUMBER_ROOM
    + 7
    + NUMBER_ROOM
    + 1;

pub const STANDING_ROOM: usize = 5 + NUMBER_ROOM + 9 + NUMBER_ROOM + 5 + SIGNED_ROOM;

pub const OUTCOME_ROOM: usize = 6 + NUMBER_ROOM + 6 + NUMBER_ROOM + 9 + SIGNED_ROOM + 1;

pub const LINE_ROOM: usize = STANDING_ROOM + OUTCOME_ROOM;

pub const USERS_ROOM: usize = format::USERS * LINE_ROOM;

// A crew with its users, and all crews.
pub const GROUP_ROOM: usize = CREW_ROOM + USERS_ROOM;

pub const GROUPS_ROOM: usize = format::GROUP_COUNT * GROUP_ROOM;
