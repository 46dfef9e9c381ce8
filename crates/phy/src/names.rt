// The paper's numbers of the phy. They are no enums: a record of the C interface has them as numbers, and a move takes
// any record, so that each choice by one would first ask whether a number is one.

// Link states: Idle, ArbSel, Selected, Connected, DisconnectWait, BreakWait, Break.
pub const L0: u64 = 0;

pub const L1: u64 = 1;

pub const L2: u64 = 2;

pub const L3: u64 = 3;

pub const L4: u64 = 4;

pub const L5: u64 = 5;

pub const L6: u64 = 6;

// Port states: Idle, Req_Wait, Connected, Wait_For_Close.
pub const P1: u64 = 1;

pub const P2: u64 = 2;

pub const P3: u64 = 3;

pub const P4: u64 = 4;

// Answers to an Open.
pub const ANSWER_OPENED: u64 = 32;

pub const ANSWER_RETRY: u64 = 48;

pub const ANSWER_NO_DESTINATION: u64 = 49;

pub const ANSWER_PATHWAY_BLOCKED: u64 = 50;

pub const ANSWER_COLLIDED: u64 = 51;

pub const ANSWER_OPENED_BY_DESTINATION: u64 = 52;

pub const ANSWER_OPENED_BY_OTHER: u64 = 53;

pub const ANSWER_BAD_DESTINATION: u64 = 64;

pub const ANSWER_RATE: u64 = 65;

pub const ANSWER_PROTOCOL: u64 = 66;

pub const ANSWER_STP_BUSY: u64 = 67;

pub const ANSWER_WRONG_DESTINATION: u64 = 68;

// Answers that are kept as a reason until the link is idle.
pub const ANSWER_OPEN_TIMEOUT: u64 = 69;

pub const ANSWER_BREAK_RECEIVED: u64 = 70;

pub const ANSWER_PORT_LAYER_REQUEST: u64 = 71;

// Ours, at a reset.
pub const ANSWER_TERMINATED: u64 = 80;

// Notices: a connection opened, and how one closed. Like the primitives they are only put into a record, never chosen
// by: an enum would be written out as a number each time.
pub const NOTICE_OPENED: u64 = 1;

pub const NOTICE_CLOSED_NORMAL: u64 = 2;

pub const NOTICE_CLOSE_TIMEOUT: u64 = 3;

pub const NOTICE_BREAK_REQUESTED: u64 = 4;

pub const NOTICE_BREAK_RECEIVED: u64 = 5;

pub const NOTICE_TRANSITION_TO_IDLE: u64 = 6;

pub const NOTICE_RESET: u64 = 7;

// Primitives and frames sent.
pub const SENT_OPEN: u64 = 1;

pub const SENT_OPEN_ACCEPT: u64 = 2;

pub const SENT_OPEN_REJECT: u64 = 3;

pub const SENT_CLOSE: u64 = 4;

pub const SENT_BREAK: u64 = 5;

// Limits.
pub const FULL_TIMER: u64 = 1000;

// The wait: from where it counts milliseconds, and the most that may have passed of the next one.
pub const BEND: u64 = 32768;

pub const MOST_PART: u64 = 999;
