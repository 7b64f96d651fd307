//! The numbers of an answer: the masks of attributes that are asked, and what stands before a label
//! and before a databody.

/// The first word of a mask whose only attribute below 32 is `rdattr_error` (attribute 11).
pub const RDATTR_ERROR_WORD: u32 = 2_048;

/// The third word of a mask whose only attribute above 63 is `sec_label` (attribute 80).
pub const SEC_LABEL_WORD: u32 = 65_536;

/// The fewest words of a mask that has `sec_label`, and the most words of a mask.
pub const FEWEST_WORDS: u32 = 3;

pub const MOST_WORDS: u32 = 8;

/// The bytes before those of `sec_label` in a list of it alone: its numbers and its length word.
pub const BEFORE_LABEL: u32 = 12;

/// The same in a list that has `rdattr_error` before it.
pub const BEFORE_LABEL_OF_ENTRY: u32 = 16;

/// The bytes of the verifier of a READDIR (RFC 8881 section 18.23).
pub const VERIFIER_SIZE: usize = 8;

/// The bytes of the handle of a context (RFC 2203 section 5.2.3.1, in this project's own layout).
pub const HANDLE_SIZE: usize = 16;

/// `reject_stat` of a call that is denied for who asks (RFC 5531 section 9).
pub const FOR_WHO_ASKS: u32 = 1;

/// `accept_stat` of a call that succeeded (RFC 5531 section 9).
pub const SUCCESS: u32 = 0;

/// The bytes before those of a databody, the verifier's body apart: six words, and the databody's
/// length word.
pub const BEFORE_DATABODY: usize = 28;
