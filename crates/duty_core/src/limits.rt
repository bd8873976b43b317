//! The numbers that rules and limits name. Each stands here once, for code and definitions alike.

/// The greatest length of a history, log and schedule together, in units.
pub const LONGEST_HISTORY: u32 = 50_400;

/// The greatest length of a log before a tour, in minutes: three weeks.
pub const LONGEST_LOG: u32 = 30_240;

/// The civil minute that no call of a rule book reaches.
pub const MINUTE_LIMIT: u32 = 100_000_000;

/// The days of rest that stand before and after each history.
pub const PADDING_DAYS: u32 = 28;

/// The rest that stands before and after each history, in minutes.
pub const PADDING_MINUTES: u32 = PADDING_DAYS * DAY_MINUTES;

/// The greatest number that a count of minutes reaches, where it stays.
pub const COUNT_LIMIT: u32 = 999_999;

/// The length of a full rest in the United States, in minutes: ten hours (49 CFR 395.3(a)(1)).
pub const US_FULL_REST: u32 = 600;

/// The greatest driving between full rests in the United States, in minutes: eleven hours
/// (49 CFR 395.3(a)(3)(i)).
pub const US_DRIVING_LIMIT: u32 = 660;

/// The length of a day, in minutes.
pub const DAY_MINUTES: u32 = 1_440;

/// The greatest time since the base at which a driver may drive in the United States, in minutes:
/// the window of fourteen hours (49 CFR 395.3(a)(2)).
pub const US_WINDOW_LIMIT: u32 = 840;

/// The length of a break from driving in the United States, in minutes (49 CFR 395.3(a)(3)(ii)).
pub const US_BREAK: u32 = 30;

/// The greatest driving without a break in the United States, in minutes: eight hours
/// (49 CFR 395.3(a)(3)(ii)).
pub const US_UNBROKEN_LIMIT: u32 = 480;

/// The number of days that the shorter week of the United States has (49 CFR 395.3(b)(1)).
pub const US_SHORT_WEEK: u32 = 7;

/// The number of days that the longer week of the United States has (49 CFR 395.3(b)(2)).
pub const US_LONG_WEEK: u32 = 8;

/// The greatest duty in the shorter week of the United States, in minutes: sixty hours in seven
/// days (49 CFR 395.3(b)(1)).
pub const US_SHORT_WEEK_LIMIT: u32 = 3_600;

/// The greatest duty in the longer week of the United States, in minutes: seventy hours in eight
/// days (49 CFR 395.3(b)(2)).
pub const US_LONG_WEEK_LIMIT: u32 = 4_200;

/// The rest after which the week of the United States begins anew, in minutes: thirty-four hours
/// (49 CFR 395.3(c)).
pub const US_RESTART: u32 = 2_040;

/// The least length of a split rest in the United States, in minutes: two hours
/// (49 CFR 395.1(g)(1)(ii)).
pub const US_SPLIT_LEAST: u32 = 120;

/// The least rest of a pair with a split rest in the United States, in minutes: ten hours
/// (49 CFR 395.1(g)(1)(ii)).
pub const US_PAIR_LEAST: u32 = 600;

/// The consecutive time in the berth that one rest of a pair has in the United States, in minutes:
/// seven hours (49 CFR 395.1(g)(1)(ii)).
pub const US_PAIR_BERTH: u32 = 420;

/// The length of a full rest in Canada, in minutes: eight hours (SOR/2005-313, section 13).
pub const CA_FULL_REST: u32 = 480;

/// The greatest driving in a day in Canada, in minutes: thirteen hours (SOR/2005-313, subsection
/// 12(1)).
pub const CA_DAY_DRIVING_LIMIT: u32 = 780;

/// The greatest duty in a day at which a driver may drive in Canada, in minutes: fourteen hours
/// (SOR/2005-313, subsection 12(2)).
pub const CA_DAY_DUTY_LIMIT: u32 = 840;

/// The greatest driving between full rests in Canada, in minutes: thirteen hours (SOR/2005-313,
/// subsection 13(1)).
pub const CA_SHIFT_DRIVING_LIMIT: u32 = 780;

/// The greatest duty between full rests at which a driver may drive in Canada, in minutes: fourteen
/// hours (SOR/2005-313, subsection 13(2)).
pub const CA_SHIFT_DUTY_LIMIT: u32 = 840;

/// The greatest time since the base at which a driver may drive in Canada, in minutes: sixteen
/// hours (SOR/2005-313, subsection 13(3)).
pub const CA_ELAPSED_LIMIT: u32 = 960;

/// The least length of a rest that counts towards a day's ten hours of rest in Canada, in minutes
/// (SOR/2005-313, subsection 14(2)).
pub const CA_BLOCK_LEAST: u32 = 30;

/// The greatest number of minutes of a day that are lost to rest in Canada: all but ten hours
/// (SOR/2005-313, subsection 14(1)).
pub const CA_LOST_LIMIT: u32 = 840;

/// The greatest number of lost minutes of a day whose rest is deferred in Canada: at most two hours
/// are deferred (SOR/2005-313, section 16).
pub const CA_DEFERRED_LOST_LIMIT: u32 = 960;

/// The greatest number of lost minutes of the two days of a deferral in Canada: all but twenty
/// hours (SOR/2005-313, section 16).
pub const CA_BOTH_LOST_LIMIT: u32 = 1_680;

/// The least length of a split rest in Canada, in minutes: two hours (SOR/2005-313, section 18).
pub const CA_SPLIT_LEAST: u32 = 120;

/// The least rest of a pair with a split rest in Canada, in minutes: ten hours (SOR/2005-313,
/// section 18).
pub const CA_PAIR_LEAST: u32 = 600;

/// The rest that a driver has taken lately in Canada, in minutes: twenty-four consecutive hours
/// (SOR/2005-313, section 25).
pub const CA_DAY_OFF: u32 = 1_440;

/// The time before a minute of driving that holds the twenty-four hours of rest in Canada, in
/// minutes: fourteen days (SOR/2005-313, section 25).
pub const CA_DAY_OFF_WITHIN: u32 = 20_160;

/// The number of the shorter cycle in Canada (SOR/2005-313, section 24).
pub const CA_CYCLE_1: u32 = 1;

/// The number of the longer cycle in Canada (SOR/2005-313, section 24).
pub const CA_CYCLE_2: u32 = 2;

/// The number of days of cycle 1 in Canada (SOR/2005-313, section 26).
pub const CA_CYCLE_1_DAYS: u32 = 7;

/// The greatest duty in cycle 1 at which a driver may drive in Canada, in minutes: seventy hours
/// (SOR/2005-313, section 26).
pub const CA_CYCLE_1_LIMIT: u32 = 4_200;

/// The rest after which cycle 1 begins anew in Canada, in minutes: thirty-six hours (SOR/2005-313,
/// section 28).
pub const CA_CYCLE_1_RESET: u32 = 2_160;

/// The number of days of cycle 2 in Canada (SOR/2005-313, section 27).
pub const CA_CYCLE_2_DAYS: u32 = 14;

/// The greatest duty in cycle 2 at which a driver may drive in Canada, in minutes: a hundred and
/// twenty hours (SOR/2005-313, section 27).
pub const CA_CYCLE_2_LIMIT: u32 = 7_200;

/// The rest after which cycle 2 begins anew in Canada, in minutes: seventy-two hours (SOR/2005-313,
/// section 28).
pub const CA_CYCLE_2_RESET: u32 = 4_320;

/// The greatest duty without twenty-four hours of rest at which a driver may drive in cycle 2 in
/// Canada, in minutes: seventy hours (SOR/2005-313, section 27).
pub const CA_WITHOUT_DAY_OFF_LIMIT: u32 = 4_200;

/// The rest before a short start in Australia, in quarters of an hour: any rest (Heavy Vehicle
/// (Fatigue Management) National Regulation, Schedule 1).
pub const AU_SHORT_START: u32 = 1;

/// The rest before a long start in Australia, in quarters of an hour: seven hours (Heavy Vehicle
/// (Fatigue Management) National Regulation, Schedule 1).
pub const AU_LONG_START: u32 = 28;

/// The period of five and a half hours in Australia, in quarters of an hour (Heavy Vehicle
/// (Fatigue Management) National Regulation, Schedule 1).
pub const AU_5H30_PERIOD: u32 = 22;

/// The greatest duty in a period of five and a half hours in Australia, in quarters of an hour:
/// five and a quarter hours (Heavy Vehicle (Fatigue Management) National Regulation, Schedule 1).
pub const AU_5H30_DUTY: u32 = 21;

/// The period of eight hours in Australia, in quarters of an hour (Heavy Vehicle (Fatigue
/// Management) National Regulation, Schedule 1).
pub const AU_8H_PERIOD: u32 = 32;

/// The greatest duty in a period of eight hours in Australia, in quarters of an hour: seven and a
/// half hours (Heavy Vehicle (Fatigue Management) National Regulation, Schedule 1).
pub const AU_8H_DUTY: u32 = 30;

/// The period of eleven hours in Australia, in quarters of an hour (Heavy Vehicle (Fatigue
/// Management) National Regulation, Schedule 1).
pub const AU_11H_PERIOD: u32 = 44;

/// The greatest duty in a period of eleven hours in Australia, in quarters of an hour: ten hours
/// (Heavy Vehicle (Fatigue Management) National Regulation, Schedule 1).
pub const AU_11H_DUTY: u32 = 40;

/// The period of twenty-four hours in Australia, in quarters of an hour (Heavy Vehicle (Fatigue
/// Management) National Regulation, Schedule 1).
pub const AU_24H_PERIOD: u32 = 96;

/// The greatest duty in a period of twenty-four hours in Australia, in quarters of an hour: twelve
/// hours (Heavy Vehicle (Fatigue Management) National Regulation, Schedule 1).
pub const AU_24H_DUTY: u32 = 48;

/// The consecutive rest in a period of twenty-four hours in Australia, in quarters of an hour:
/// seven hours (Heavy Vehicle (Fatigue Management) National Regulation, Schedule 1).
pub const AU_24H_REST: u32 = 28;

/// The period of seven days in Australia, in quarters of an hour (Heavy Vehicle (Fatigue
/// Management) National Regulation, Schedule 1).
pub const AU_7D_PERIOD: u32 = 672;

/// The greatest duty in a period of seven days in Australia, in quarters of an hour: seventy-two
/// hours (Heavy Vehicle (Fatigue Management) National Regulation, Schedule 1).
pub const AU_7D_DUTY: u32 = 288;

/// The consecutive rest in a period of seven days in Australia, in quarters of an hour: twenty-
/// four hours (Heavy Vehicle (Fatigue Management) National Regulation, Schedule 1).
pub const AU_7D_REST: u32 = 96;

/// The period of fourteen days in Australia, in quarters of an hour (Heavy Vehicle (Fatigue
/// Management) National Regulation, Schedule 1).
pub const AU_14D_PERIOD: u32 = 1_344;

/// The greatest duty in a period of fourteen days in Australia, in quarters of an hour: a hundred
/// and forty-four hours (Heavy Vehicle (Fatigue Management) National Regulation, Schedule 1).
pub const AU_14D_DUTY: u32 = 576;

/// The least number of nights with a break in a period of fourteen days in Australia (Heavy
/// Vehicle (Fatigue Management) National Regulation, Schedule 1).
pub const AU_14D_NIGHTS: u32 = 4;

/// The part of a night before its midnight in Australia, in quarters of an hour: from 22:00 on
/// (Heavy Vehicle (Fatigue Management) National Regulation, Schedule 1).
pub const AU_NIGHT_BEFORE: u32 = 8;

/// The part of a night after its midnight in Australia, in quarters of an hour: up to 08:00 (Heavy
/// Vehicle (Fatigue Management) National Regulation, Schedule 1).
pub const AU_NIGHT_AFTER: u32 = 32;

/// The consecutive rest inside a night that is a break in Australia, in quarters of an hour: seven
/// hours (Heavy Vehicle (Fatigue Management) National Regulation, Schedule 1).
pub const AU_NIGHT_REST: u32 = 28;

/// The consecutive rest over a night's midnight that is a break in Australia, in quarters of an
/// hour: twenty-four hours (Heavy Vehicle (Fatigue Management) National Regulation, Schedule 1).
pub const AU_NIGHT_LONG_REST: u32 = 96;
