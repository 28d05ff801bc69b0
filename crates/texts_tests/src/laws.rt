//! Each law over languages once at concrete ones.

use order_text::Orders;
use record_text::Records;
use script_reader::laws::{one_fault_in, one_text_in, text_or_faulty_in};

#[test]
fn laws_hold_of_languages() {
    one_text_in::<Records>();
    one_fault_in::<Records>();
    text_or_faulty_in::<Records>();
    one_text_in::<Orders>();
    one_fault_in::<Orders>();
    text_or_faulty_in::<Orders>();
}
