// The documents' numbers by name, as the rulebook has them.

pub const PORT_MODE: u32 = 0;

pub const PORT_EVENT: u32 = 1;

pub const PORT_TIMER: u32 = 2;

pub const CONDITION_EQUAL: u32 = 0;

pub const CONDITION_NOT_EQUAL: u32 = 1;

pub const CONDITION_SET: u32 = 2;

pub const CONDITION_CLEARED: u32 = 3;

pub const OPERATOR_AND: u32 = 4;

pub const OPERATOR_OR: u32 = 5;

pub const OPERATOR_XOR: u32 = 6;

pub const OPERATOR_NAND: u32 = 7;

pub const OPERATOR_NOT: u32 = 8;

pub const CONDITION_AT_OR_ABOVE: u32 = 9;

pub const ITEM_CALL: u32 = 0;

pub const ITEM_CLEAR: u32 = 1;

pub const ITEM_START: u32 = 2;

pub const ITEM_STOP: u32 = 3;

pub const ITEM_ASK: u32 = 4;

pub const ITEM_LIST: u32 = 5;

pub const ITEM_RULE: u32 = 6;

// The number by which a rule says that it has no list.
pub const NO_LIST: u32 = 255;

pub const PLATFORM: u32 = 0;

// What a timer port's value says.
pub const TIMER_STOPPED: u32 = 0;

pub const TIMER_STARTED: u32 = 1;

pub const TIMER_EXPIRED: u32 = 2;

// The result of a rule that mentions an undefined port.
pub const UNDEFINED_RESULT: u32 = 2;

pub const ASKED_NONE: u32 = 0;

pub const ASKED_SILENT: u32 = 1;

pub const ASKED_FULL: u32 = 2;

pub const STATE_NONE: u32 = 0;

pub const STATE_SILENT: u32 = 1;

pub const STATE_CHECK: u32 = 2;

pub const STATE_FULL: u32 = 3;

pub const STATE_RECOVER: u32 = 4;

pub const STATUS_NONE: u32 = 0;

pub const STATUS_PENDING: u32 = 1;

pub const STATUS_VALIDATED: u32 = 2;

pub const STATUS_EXPIRED: u32 = 3;

pub const EVENT_TICK: u32 = 0;

pub const EVENT_MODE: u32 = 1;

pub const EVENT_REQUEST: u32 = 2;

pub const EVENT_WAKEUP: u32 = 3;

pub const EVENT_VALID: u32 = 4;

pub const EVENT_BUS_OFF: u32 = 5;

pub const EVENT_CLEAR: u32 = 6;

pub const EVENT_HEARD: u32 = 7;

// The kind of the trace word that a list's start writes.
pub const TRACE_LIST_START: u32 = 15;
