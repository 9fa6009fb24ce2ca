//! Each law of `promises`, and of a site's crates, at work: on tenants 7 and 9, their jobs 3 and 5, worker 5, the third entry of a table,
//! the second line, a failed write, any customer and any guest.
//!
//! Each function's comment says which clause it uses; the check of the documents refuses a clause of a page that none uses, and one of
//! the laws that `tools/docs/laws.txt` names.
//!
//! Nothing else stands on `promises`, so nothing else would notice where one of its laws came to say less. Each
//! function here calls one law and says in lower terms, without the words of `promises`, what it gives of such a
//! case: a law that is narrowed to some tenant, job, grain or list, or a definition of it that lost a part, no longer
//! suffices.
#![tactic(auto)]

mod comings;
mod connections;
mod customers;
mod desks;
mod directories;
mod fits;
mod going;
mod halls;
mod instances;
mod isolation;
mod needs;
mod premises;
mod reserved;
mod runs;
mod seen;
mod sessions;
mod several;
mod sites;
mod solving;
mod soundness;
mod tables;
mod turns;
mod values;

pub use comings::{when_they_have_gone, who_enters, who_goes_for_another, who_has_no_room};
pub use connections::ping_and_hello;
pub use customers::{
    a_customer_and_the_guests, a_customer_at_its_limits, a_guest_at_its_limits, nobody_is_left,
    plans_that_come_in, room_for_all, within_all_budgets,
};
pub use desks::{
    a_new_seat, job_of_nine, live_of_nine, nine_asks, nine_asks_in_vain, nine_cancels, nine_leaves,
    nine_reserves, quota_of_nine, two_sessions,
};
pub use directories::{lines_at_a_rate, what_is_accepted};
pub use fits::{a_root_to_depth_eight, frames_of_seven_and_nine, jobs_of_seven_and_nine};
pub use going::{
    five_goes_on, five_has_an_answer, job_three_after_a_list, job_three_at_a_step,
    job_three_in_a_core, job_three_in_a_hall, job_three_of_seven, newest_of_job_three,
    who_stands_first, who_waits,
};
pub use halls::{
    any_step, entry_of_nine, seven_and_nine, seven_cancels, value_of_nine, value_of_seven,
};
pub use instances::{in_two_runs, with_several_jobs};
pub use isolation::seven_in_a_running_core;
pub use needs::{nodes_of_seven_and_nine, segments_of_seven_and_nine, what_a_position_needs};
pub use premises::{at_a_door, at_calls, in_a_book, in_a_core, in_a_file, in_a_line, in_a_time};
pub use reserved::{nine_asks_to_depth_eight, seven_asks_again};
pub use runs::{
    nine_by_its_own_steps, nine_is_undisturbed, refusals, seven_alone, seven_in_both,
    table_of_nine, three_answers, words_of_seven,
};
pub use seen::{a_spent_ask, hello_and_bye, quota_after_hello};
pub use sessions::third_answer;
pub use several::{seven_beside_nine, third_and_fifth_live, two_at_once, two_find_room};
pub use sites::{
    a_session_asks, a_session_asks_in_vain, a_session_cancels, a_session_comes, a_session_leaves,
    a_session_reserves, another_plan, budget_at_another_desk, budget_of_a_customer,
    customers_of_two_halls, job_of_a_session, live_of_a_session, quota_of_a_session, two_customers,
};
pub use solving::three_lines;
pub use soundness::third_frame_of_nine;
pub use tables::tables_of_seven_and_nine;
pub use turns::{when_it_is_picked_again, when_the_least_is_picked};
pub use values::by_one_disc;
