//! Each law over shapes once at a concrete one.

use crate::opening::Triple;
use history_model::laws as model;
use order_rebuild::order_is_legal;
use txn_words::Plain;
use txn_words::laws::same_as_at_mark;
use values_rule::laws as rule;
use word_table::laws as table;

#[test]
fn laws_hold_of_a_shape() {
    table::every_step::<Triple>();
    table::every_cut::<Triple>();
    table::every_join::<Triple>();
    table::every_run::<Triple>();
    table::every_meeting::<Triple>();
    table::every_call::<Triple>();
    table::every_draw::<Triple>();
    table::every_number::<Triple>();
    table::every_arrangement::<Triple>();
    table::every_write::<Triple>();
    table::every_deal::<Triple>();
    table::opening_run::<Triple>();
    table::step_leads::<Triple>();
    table::greatest_sizes();
    order_is_legal::<Triple>();
    model::ordered_is_legal::<Triple>();
    model::same_words::<Triple>();
    model::stands_last::<Triple>();
    model::drops_items::<Triple>();
    rule::begin_call::<Triple>();
    rule::load_version::<Triple>();
    rule::load_value::<Triple>();
    rule::store_value::<Triple>();
    rule::undo_store::<Triple>();
    rule::commit_call::<Triple>();
    rule::store_version::<Triple>();
    rule::clear_stamp::<Triple>();
    rule::set_read_bit::<Triple>();
    rule::load_writer::<Triple>();
    rule::claim_writer::<Triple>();
    rule::scan_row::<Triple>();
    rule::clear_read_bit::<Triple>();
    rule::release_writer::<Triple>();
    rule::gives_way::<Triple>();
    rule::restarts::<Triple>();
    rule::gives_up::<Triple>();
    rule::quiet::<Triple>();
    rule::aside::<Triple>();
    rule::split_seat::<Triple>();
    rule::take_note::<Triple>();
    rule::meet_note::<Triple>();
    rule::join_seats::<Triple>();
    rule::opening::<Triple>();
    rule::every_arrangement_legal::<Triple>();
    rule::undoing_restores::<Triple>();
    rule::closed_by_all::<Triple>();
    same_as_at_mark::<Plain<Triple>>();
}
