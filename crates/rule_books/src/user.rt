//! What is done with a rule book, and the book of given parameters.
ghost use Rattle.duty_core.specs.declared.params.Params.{Params};
ghost use Rattle.duty_core.specs.Params.{AreGoodParams};
ghost use Rattle.rule_core.specs.Machine.{Machine};
ghost use Rattle.rule_books.specs.Books.{book_for};

use canada_rules::CanadaBook;
use duty_core::Params;
use hvnl_rules::HvnlBook;
use rule_core::RuleBook;
use std::alloc::Global;
use us_rules::UsBook;

/// What is done with a rule book, whichever it is.
///
/// A user is a struct that holds all that its work needs but the book. It says what it promises of
/// any book, and is proved once, over all of them.
pub trait BookUser {
    /// What comes of the work.
    type Answer;

    /// What the user asks of the book's parameters.
    ghost asks: { Self → Params → Type 0 };

    /// What the user promises of its answer, where the book does as this machine.
    ghost gives: { {S : Type 0} → Self → Machine S → Self.Answer → Type 0 };

    /// Does the work with this book.
    fn use_book<B: RuleBook>(self, book: &B) -> Self::Answer
        requires { asks self (B.machine book.now).params }
        ensures { gives self (B.machine book.now) result };
}

/// What the user makes of the rule book of these parameters.
pub fn with_book<U: BookUser>(alloc: Global, params: Params, user: U) -> U::Answer
    requires good { AreGoodParams params }
    requires asks { U.asks user params }
    ensures { U.gives user (book_for params) result }
{
    match params {
        Params::UsProperty {
            berth,
            days,
            day_start,
        } => user.use_book(&UsBook::new(berth, days, day_start)),
        Params::Canada {
            berth,
            way,
            cycle,
            day_start,
        } => user.use_book(&CanadaBook::new(berth, way, cycle, day_start)),
        Params::Hvnl {} => user.use_book(&HvnlBook::new(alloc)),
    }
}
