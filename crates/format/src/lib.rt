// The numbers of the image's and the action's layout, and the structs that stand for their records. What is of an older version says so.
// Each number stands once here for code and once in specs/Layout.antt for definitions; the proofs of the code that has them fail where the two differ.
#![tactic(auto)]

// Bytes 0 to 2 of an image.
pub const MARK: [u8; 3] = *b"VAL";

// The version, in bytes 3 and 4.
pub const VERSION: u8 = 3;

pub const VERSION_1: u8 = 1;

pub const VERSION_2: u8 = 2;

pub const USERS: usize = 8;

pub const REPLICAS: u8 = 8;

pub const REPLICA_AT: usize = 5;

pub const HOMES_AT: usize = 6;

pub const RESERVED_AT: usize = 14;

pub const GROUPS_AT: usize = 16;

pub const GROUP_SIZE: usize = 18;

pub const GROUP_SIZE_1: usize = 16;

pub const GROUP_COUNT: usize = 16;

pub const EXPENSES_AT: usize = 304;

pub const EXPENSES_AT_1: usize = 272;

pub const EXPENSE_SIZE: usize = 42;

// An expense of version 1 or 2, and the same bytes of a later one.
pub const EXPENSE_SIZE_1: usize = 40;

pub const EXPENSE_COUNT: usize = 512;

pub const IMAGE_SIZE: usize = 21808;

pub const IMAGE_SIZE_1: usize = 20752;

pub const IMAGE_SIZE_2: usize = 20784;

// A payer of 255 says that there is no expense, a group of 255 that it is in none.
pub const NO_EXPENSE: u8 = 255;

pub const NO_GROUP: u8 = 255;

// What a replica owns: groups 2r and 2r + 1, expenses 64r to 64r + 63.
pub const GROUPS_EACH: usize = 2;

pub const EXPENSES_EACH: usize = 64;

// The limits of an expense's total, of a counter and of a version.
pub const MOST_TOTAL: u64 = 1000000000;

pub const LAST_COUNTER: u16 = 65535;

pub const LAST_VERSION: u32 = 4294967295;

// The rules by which gifts go to members: equally, or by use.
pub const EQUAL_RULE: u16 = 1;

pub const USE_RULE: u16 = 2;

// The largest share that needs no acknowledgement in a group of the second rule.
pub const SMALL_SHARE: u32 = 500;

// Days count from 1 January 2000, day 0, up to 31 December 2099; months from January 2000, month 0.
pub const LAST_DAY: u16 = 36524;

// In the place of a day: the expense has none.
pub const UNDATED: u16 = 65535;

pub const MONTH_COUNT: u64 = 1200;

// An action record.
pub const ACTION_SIZE: usize = 40;

pub const KIND_AT: usize = 0;

pub const ACTOR_AT: usize = 1;

pub const OTHER_AT: usize = 2;

pub const GROUP_NUMBER_AT: usize = 3;

pub const EXPENSE_NUMBER_AT: usize = 4;

pub const REST_AT: usize = 6;

// A list of who pays whom: a number for each payer and receiver.
pub const PAYMENTS_SIZE: usize = 64;

// The balances of all groups: a number for each group and user.
pub const BALANCES_SIZE: usize = 128;

// An expense (the paper's cost) as its bytes have it.
#[derive(Clone, Copy)]
pub struct ExpenseRecord {
    pub payer: u8,
    pub group: u8,
    pub deleted: u8,
    pub acknowledged: u8,
    pub version: u32,
    pub shares: [u32; 8],
    pub day: u16,
}

// A group (the paper's crew): its eight membership counters and the number of its rule.
#[derive(Clone, Copy)]
pub struct GroupRecord {
    pub counters: [u16; 8],
    pub rule: u16,
}

// A user's line of a statement.
#[repr(C)]
#[derive(Clone, Copy)]
pub struct Line {
    pub counter: u16,
    pub raw: i64,
    pub gift: u64,
    pub part: u64,
    pub balance: i64,
}

// A statement's answer with its members, valid expenses and total gifts, all zero where it is refused.
#[repr(C)]
#[derive(Clone, Copy)]
pub struct Totals {
    pub answer: u32,
    pub members: u32,
    pub expenses: u32,
    pub gifts: u64,
}

// The place and the length of a part of the image, for a caller that can't be handed a reference; both 0 where there is none.
#[repr(C)]
#[derive(Clone, Copy)]
pub struct Part {
    pub at: usize,
    pub len: usize,
}
