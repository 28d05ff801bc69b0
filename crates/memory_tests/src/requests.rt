//! Transfers, audits and looks on a plain list, with words computed by hand.

use std::test::Fail;
use transfers::{Answer, Audit, Look, Request, Transfer, Vault};
use txn_words::{Verdict, run_on_plain};

#[test]
fn an_amount_is_moved_and_the_sum_told_on_a_plain_list(rt: HostRuntime) -> Result<(), Fail> {
    let vault = Vault {
        words: 3,
        total: 13,
    };
    let job = Transfer {
        vault,
        from: 0,
        to: 2,
        amount: 4,
    };
    let words = Vec::from_slice(rt.alloc(), &[5, 7, 1])?;
    let (verdict, plain) = run_on_plain(rt.alloc(), vault, words, &job)?;
    assert_eq!(rt; verdict, Verdict::Keep(()));
    assert_eq!(rt; plain.words(), [1, 7, 5].as_slice());
    let words = Vec::from_slice(rt.alloc(), &[1, 7, 5])?;
    let (verdict, plain) = run_on_plain(rt.alloc(), vault, words, &Audit { vault })?;
    assert_eq!(rt; verdict, Verdict::Keep(13));
    assert_eq!(rt; plain.words(), [1, 7, 5].as_slice());
    let look = Request::Look(Look { vault, place: 1 });
    let words = Vec::from_slice(rt.alloc(), &[1, 7, 5])?;
    let (verdict, _) = run_on_plain(rt.alloc(), vault, words, &look)?;
    assert_eq!(rt; verdict, Verdict::Keep(Answer::Held(Some(7))));
    Ok(())
}
