//! Each law over types once at concrete ones.

use order_text::{OrderReply, OrderScript};
use txn_cells::array::CellsShape;
use txn_cells::laws::{one_list, typed_trace};
use txn_stores::laws::{jobs_are_journal, jobs_counted};

#[test]
fn laws_hold_of_types() {
    let shape = CellsShape::<u128>::new(1, 2);
    one_list::<u128, CellsShape<u128>>();
    typed_trace::<u128, CellsShape<u128>>(&shape);
    jobs_are_journal::<OrderScript, OrderReply>();
    jobs_counted::<OrderScript>();
}
