// Are a user's and a trade's fields valid? Each field of one record by itself; what is asked of the records together is asked elsewhere.
#![tactic(auto)]

ghost use Rattle.std.specs.Prelude.{◌≡◌};
ghost use Rattle.rules.specs.Questions.{user_is_valid};
ghost use Rattle.book_records.specs.User.{as_user};
ghost use Rattle.book_records.specs.Trade.{as_trade};
ghost use Rattle.book_valid.specs.Given.{trade_is_valid_given};

use book_records::{Trade, User};

// Both functions join their tests by `&` and compare plain numbers: so the tests of a record are compiled together, without a branch for
// each (docs/PROVING-NOTES.md).

// Is every field of a user valid, its position apart? (That ids rise is asked of the users together.)
pub fn user_valid(u: User) -> bool
    ensures { result ≡ user_is_valid (as_user u) }
{
    let pvb_valid = u.physical[0].is_entry();
    let tvb_valid = u.physical[1].is_entry();
    let avb_valid = u.physical[2].is_entry();
    let charges_valid = u.charges.is_charges();
    (u.role < 2)
        & ((pvb_valid & (tvb_valid & avb_valid))
            & (charges_valid & ((u.blocked.0 <= u.assigned.0) & (u.assigned.0 <= 1000000000000))))
}

// Is the trade valid, given whether its seller and its buyer are users of the book?
pub fn trade_valid(seller_known: bool, buyer_known: bool, t: Trade) -> bool
    ensures { result ≡ trade_is_valid_given seller_known buyer_known (as_trade t) }
{
    let bilateral = book_records::is_bilateral_for_day(t);
    (seller_known & buyer_known & (t.seller != t.buyer))
        & (((t.area < 3) & ((t.kind < 3) & (t.day < 2)))
            & (((1 <= t.notified.0) & (t.notified.0 <= 100000))
                & ((t.standing.0 <= t.notified.0) & (bilateral | (t.standing.0 == t.notified.0)))))
}
