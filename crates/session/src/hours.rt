// The hours as tests of a time in seconds of the day.
ghost use Rattle.std.specs.Prelude.{◌≡◌};
ghost use Rattle.session.specs.Hours.{past_day, within_hours, presenter_late, receiver_late, at_close};

use crate::session::Session;

// The last second of a day.
const LAST_SECOND: u32 = 86_399;

// Whether a time is no time of a day.
pub fn past_day(time: u32) -> bool
    ensures { result ≡ past_day time }
{
    LAST_SECOND < time
}

// Whether messages and replies are taken and sent.
pub fn within_hours(time: u32) -> bool
    ensures { result ≡ within_hours time }
{
    (Session::OPENING <= time) & (time < Session::CLOSE)
}

// Whether it is too late to send a header.
pub fn presenter_late(time: u32) -> bool
    ensures { result ≡ presenter_late time }
{
    Session::PRECLOSE <= time
}

// Whether it is too late to accept one.
pub fn receiver_late(time: u32) -> bool
    ensures { result ≡ receiver_late time }
{
    Session::CUT_OFF <= time
}

// Whether a clock call closes.
pub fn at_close(time: u32) -> bool
    ensures { result ≡ at_close time }
{
    Session::CLOSE <= time
}
