//! What a driver does, the parameters of a rule book, the marks of a history, and the definitions
//! of a lawful history.
#![tactic(auto)]

mod activity;
mod laws;
mod limits;
mod mark;
mod memory;
mod params;
mod rule;
mod try_vec;

pub use activity::{Activity, is_duty, is_rest};
pub use laws::{
    counts_have_one_base, days_follow_minutes, deferral_leaves_no_choice,
    duty_starts_anew_each_day, empty_is_lawful, front_is_lawful, full_rest_is_not_split,
    marks_name_what_is_there, order_fixes_marks, rest_after_is_lawful,
    rest_in_the_berth_is_plainly_better, rules_have_these_numbers,
};
pub use limits::{
    AU_5H30_DUTY, AU_5H30_PERIOD, AU_7D_DUTY, AU_7D_PERIOD, AU_7D_REST, AU_8H_DUTY, AU_8H_PERIOD,
    AU_11H_DUTY, AU_11H_PERIOD, AU_14D_DUTY, AU_14D_NIGHTS, AU_14D_PERIOD, AU_24H_DUTY,
    AU_24H_PERIOD, AU_24H_REST, AU_LONG_START, AU_NIGHT_AFTER, AU_NIGHT_BEFORE, AU_NIGHT_LONG_REST,
    AU_NIGHT_REST, AU_SHORT_START, CA_BLOCK_LEAST, CA_BOTH_LOST_LIMIT, CA_CYCLE_1, CA_CYCLE_1_DAYS,
    CA_CYCLE_1_LIMIT, CA_CYCLE_1_RESET, CA_CYCLE_2, CA_CYCLE_2_DAYS, CA_CYCLE_2_LIMIT,
    CA_CYCLE_2_RESET, CA_DAY_DRIVING_LIMIT, CA_DAY_DUTY_LIMIT, CA_DAY_OFF, CA_DAY_OFF_WITHIN,
    CA_DEFERRED_LOST_LIMIT, CA_ELAPSED_LIMIT, CA_FULL_REST, CA_LOST_LIMIT, CA_PAIR_LEAST,
    CA_SHIFT_DRIVING_LIMIT, CA_SHIFT_DUTY_LIMIT, CA_SPLIT_LEAST, CA_WITHOUT_DAY_OFF_LIMIT,
    COUNT_LIMIT, DAY_MINUTES, LONGEST_HISTORY, LONGEST_LOG, MINUTE_LIMIT, PADDING_DAYS,
    PADDING_MINUTES, US_BREAK, US_DRIVING_LIMIT, US_FULL_REST, US_LONG_WEEK, US_LONG_WEEK_LIMIT,
    US_PAIR_BERTH, US_PAIR_LEAST, US_RESTART, US_SHORT_WEEK, US_SHORT_WEEK_LIMIT, US_SPLIT_LEAST,
    US_UNBROKEN_LIMIT, US_WINDOW_LIMIT,
};
pub use mark::{Day, Mark, Marks, Minute};
pub use memory::NoMemory;
pub use params::{Params, RestWay, allowed, day_start_of, has_berth, unit_of, way_of};
pub use rule::Rule;
pub use try_vec::TryVec;
