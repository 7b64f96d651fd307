ghost use Rattle.std.specs.Prelude.{◌≡◌};
ghost use Rattle.lnfs_arguments.specs.Further.{Further, IsLawful};

use lnfs_xdr::XdrError;

/// Operations beside those of the table. The arguments of each count as one item.
///
/// The calls answer fixed functions of the type and of their arguments. Their laws: the numbers are
/// of minor version 2, from 3 to 71, and none of the table; a result's bound is at least 8.
///
/// Operations whose arguments are formats, as those of the table are, make a lawful grammar by
/// `further_of`: `length` reads the format, and answers how many bytes were read or the fault.
pub trait ExtraGrammar {
    ghost grammar: { Further };

    /// Whether it has the operation of a number.
    fn serves(&self, number: u32) -> bool
        ensures { result ≡ grammar.serves number };

    /// How many of the bytes that are left are the arguments of the operation, or why they aren't
    /// there.
    fn length(&self, number: u32, rest: &[u8]) -> Result<usize, XdrError>
        ensures { result ≡ grammar.measure number rest.now };

    /// The most bytes of the operation's result.
    fn bound(&self, number: u32, args: &[u8]) -> u32
        ensures { result ≡ grammar.bound number args.now };

    ghost lawful: { IsLawful grammar };
}

/// No operation beside those of the table.
#[derive(Clone, Copy, Debug)]
pub struct NoExtraGrammar;

/// The bytes of a number and a status.
const LEAST_BOUND: u32 = 8;

impl ExtraGrammar for NoExtraGrammar {
    ghost use Rattle.lnfs_arguments.specs.Further.{nothing_further};
    ghost use Rattle.lnfs_arguments.specs.Lawful.{nothing_further_is_lawful};

    ghost grammar = { nothing_further };

    fn serves(&self, _number: u32) -> bool {
        false
    }

    fn length(&self, _number: u32, _rest: &[u8]) -> Result<usize, XdrError> {
        Err(XdrError::Short)
    }

    fn bound(&self, _number: u32, _args: &[u8]) -> u32 {
        LEAST_BOUND
    }

    ghost lawful = { nothing_further_is_lawful };
}
